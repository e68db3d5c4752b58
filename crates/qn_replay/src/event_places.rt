//! The event of a soak that was drawn last, in a place of its kind.
ghost use Rattle.std.specs.Prelude.{◌≡◌, true};
ghost use Rattle.qn_model.specs.Rules.{is_well_formed};
ghost use Rattle.qn_replay.specs.Draws.{next_state};
ghost use Rattle.qn_replay.specs.Generator.{moment, pass_at, soak_settings};

use crate::generator::Gen;
use qn_base::{Rank, View};
use qn_model::{Clocks, Event};
use std::marker::Model;

/// The kinds of events that have a place of their own, and the place of the others.
#[derive(Clone, Copy)]
pub(crate) enum Place {
    Pass,
    View,
    Deliver,
    Device,
    Tick,
    Feed,
    Land,
    Done,
    Other,
}

/// An event in each place.
#[derive(Drop)]
pub(crate) struct Events {
    pass: Event,
    view: Event,
    deliver: Event,
    device: Event,
    tick: Event,
    feed: Event,
    land: Event,
    done: Event,
    other: Event,
}

/// The event that was drawn last. It stands in a place of its kind, where the kind is often drawn: an event that is written over one of another
/// kind clears the room for 32 clocks.
#[derive(Drop)]
pub struct EventPlaces {
    last: Place,
    events: Events,
}

impl Model for EventPlaces {
    ghost use Rattle.qn_model.specs.declared.events.Event.{Event};
    ghost use Rattle.qn_replay.specs.EventPlaces.{event_in};

    ghost Value = { Event };

    ghost view = { λ places. event_in places.last places.events };
}

impl EventPlaces {
    /// A tick of the first node.
    pub fn new() -> EventPlaces
        ensures { result ≡ Event.Tick (record { 0 = 0 }) }
    {
        EventPlaces {
            last: Place::Tick,
            events: Events {
                pass: Event::Tick(Rank(0)),
                view: Event::Tick(Rank(0)),
                deliver: Event::Tick(Rank(0)),
                device: Event::Tick(Rank(0)),
                tick: Event::Tick(Rank(0)),
                feed: Event::Tick(Rank(0)),
                land: Event::Tick(Rank(0)),
                done: Event::Tick(Rank(0)),
                other: Event::Tick(Rank(0)),
            },
        }
    }

    /// The event.
    pub fn event(&self) -> &Event
        ensures { result.now ≡ self.now }
    {
        match self.last {
            Place::Pass => &self.events.pass,
            Place::View => &self.events.view,
            Place::Deliver => &self.events.deliver,
            Place::Device => &self.events.device,
            Place::Tick => &self.events.tick,
            Place::Feed => &self.events.feed,
            Place::Land => &self.events.land,
            Place::Done => &self.events.done,
            Place::Other => &self.events.other,
        }
    }

    /// The event alone.
    pub(crate) fn into_event(self) -> Event
        ensures { result ≡ self }
    {
        match self.last {
            Place::Pass => self.events.pass,
            Place::View => self.events.view,
            Place::Deliver => self.events.deliver,
            Place::Device => self.events.device,
            Place::Tick => self.events.tick,
            Place::Feed => self.events.feed,
            Place::Land => self.events.land,
            Place::Done => self.events.done,
            Place::Other => self.events.other,
        }
    }

    /// Time passes, by the next draws, with a clock for each of the nodes that run.
    pub(crate) fn set_pass(&mut self, draws: &mut Gen, first: bool, second: bool, third: bool)
        ensures drawn { record { event = self.new; state = draws.new }
            ≡ pass_at first second third (next_state draws.old) }
        ensures formed { is_well_formed soak_settings self.new ≡ true }
    {
        self.last = Place::Pass;
        draws.pass(first, second, third, &mut self.events.pass);
    }

    /// One millisecond passes, on all clocks.
    pub(crate) fn set_moment(&mut self)
        ensures { self.new ≡ moment }
    {
        self.last = Place::Pass;
        write_moment(&mut self.events.pass);
    }

    /// A node is handed a view.
    pub(crate) fn set_view(&mut self, rank: Rank, view: View)
        ensures { self.new ≡ Event.View rank view }
    {
        self.last = Place::View;
        write_view(rank, view, &mut self.events.view);
    }

    /// A node is handed the packet of that number.
    pub(crate) fn set_deliver(&mut self, rank: Rank, number: u64)
        ensures { self.new ≡ Event.Deliver rank number }
    {
        self.last = Place::Deliver;
        write_deliver(rank, number, &mut self.events.deliver);
    }

    /// The quorum device answers a node.
    pub(crate) fn set_device(&mut self, rank: Rank, vote: bool)
        ensures { self.new ≡ Event.Device rank vote }
    {
        self.last = Place::Device;
        write_device(rank, vote, &mut self.events.device);
    }

    /// Time comes to a node.
    pub(crate) fn set_tick(&mut self, rank: Rank)
        ensures { self.new ≡ Event.Tick rank }
    {
        self.last = Place::Tick;
        write_tick(rank, &mut self.events.tick);
    }

    /// The last feed that a node decided takes effect.
    pub(crate) fn set_feed(&mut self, rank: Rank)
        ensures { self.new ≡ Event.Feed rank }
    {
        self.last = Place::Feed;
        write_feed(rank, &mut self.events.feed);
    }

    /// The disk operation of a node takes effect.
    pub(crate) fn set_land(&mut self, rank: Rank)
        ensures { self.new ≡ Event.Land rank }
    {
        self.last = Place::Land;
        write_land(rank, &mut self.events.land);
    }

    /// The disk operation of a node is answered.
    pub(crate) fn set_done(&mut self, rank: Rank)
        ensures { self.new ≡ Event.Done rank }
    {
        self.last = Place::Done;
        write_done(rank, &mut self.events.done);
    }

    /// An event of another kind.
    pub(crate) fn set_other(&mut self, event: Event)
        ensures { self.new ≡ event }
    {
        self.last = Place::Other;
        self.events.other = event;
    }
}

/// Writes one millisecond, on all clocks, over an event; over a pass the room for clocks is not cleared.
fn write_moment(into: &mut Event)
    ensures { into.new ≡ moment }
{
    if let Event::Pass { dt, clocks } = into {
        *dt = 1;
        clocks.clear();
    } else {
        *into = Event::Pass {
            dt: 1,
            clocks: Clocks::new(),
        };
    }
}

/// Writes a view over an event; over a view it changes what differs.
fn write_view(rank: Rank, view: View, into: &mut Event)
    ensures { into.new ≡ Event.View rank view }
{
    if let Event::View(of, members) = into {
        *of = rank;
        *members = view;
    } else {
        *into = Event::View(rank, view);
    }
}

/// Writes the delivery of a packet over an event; over a delivery it changes what differs.
fn write_deliver(rank: Rank, number: u64, into: &mut Event)
    ensures { into.new ≡ Event.Deliver rank number }
{
    if let Event::Deliver(of, packet) = into {
        *of = rank;
        *packet = number;
    } else {
        *into = Event::Deliver(rank, number);
    }
}

/// Writes an answer of the device over an event; over an answer it changes what differs.
fn write_device(rank: Rank, vote: bool, into: &mut Event)
    ensures { into.new ≡ Event.Device rank vote }
{
    if let Event::Device(of, answer) = into {
        *of = rank;
        *answer = vote;
    } else {
        *into = Event::Device(rank, vote);
    }
}

/// Writes a tick over an event; over a tick it changes the node alone.
fn write_tick(rank: Rank, into: &mut Event)
    ensures { into.new ≡ Event.Tick rank }
{
    if let Event::Tick(of) = into {
        *of = rank;
    } else {
        *into = Event::Tick(rank);
    }
}

/// Writes a feed over an event; over a feed it changes the node alone.
fn write_feed(rank: Rank, into: &mut Event)
    ensures { into.new ≡ Event.Feed rank }
{
    if let Event::Feed(of) = into {
        *of = rank;
    } else {
        *into = Event::Feed(rank);
    }
}

/// Writes an operation that takes effect over an event; over such a one it changes the node alone.
fn write_land(rank: Rank, into: &mut Event)
    ensures { into.new ≡ Event.Land rank }
{
    if let Event::Land(of) = into {
        *of = rank;
    } else {
        *into = Event::Land(rank);
    }
}

/// Writes the answer of an operation over an event; over such a one it changes the node alone.
fn write_done(rank: Rank, into: &mut Event)
    ensures { into.new ≡ Event.Done rank }
{
    if let Event::Done(of) = into {
        *of = rank;
    } else {
        *into = Event::Done(rank);
    }
}
