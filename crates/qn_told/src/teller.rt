//! Tells the lines of a running node.
ghost use Rattle.std.specs.Prelude.{◌≡◌};
ghost use Rattle.qn_notice.specs.Observing.{takes};
ghost use Rattle.qn_told.specs.Telling.{is_same, mail_line, image_line, subject_of};

use crate::around::Around;
use crate::entered::Entered;
use crate::events::{add_failed, event_line};
use crate::images::ImageNews;
use crate::mail::MailNews;
use crate::news::News;
use crate::node_names::add_name;
use crate::remarks::{
    device_answered, device_silent, feeds_failed, image_back, image_lost, mail_damaged,
    mail_failed, mail_told, network_back, network_lost, packets_refused, peer_lost, peer_seen,
};
use crate::says::Says;
use qn_base::{NodeId, Rank};
use qn_event::{EventLine, Moment};
use qn_live::{Asked, Decoded, Given, NodeRun};
use qn_model::What;
use qn_notice::Event;
use std::marker::Model;

/// Tells the lines of a node, by what is known of it.
#[derive(Drop)]
pub struct Teller<S: Says> {
    pub news: News,
    pub says: S,
}

impl<S: Says> Model for Teller<S> {
    ghost use Rattle.qn_told.specs.Telling.{Told};

    ghost Value = { Told };

    ghost view = { λ t. record { news = t.news; said = S.said t.says } };
}

impl<S: Says> Teller<S> {
    ghost use Rattle.std.specs.Prelude.{◌≡◌};
    ghost use Rattle.qn_told.specs.Telling.{IsTold, call_told, device_told, entered_told, event_told, events_told, failed_before, greeted, image_told, missed, network_told, peer_heard, peer_missed, seldom_told, silence_told, stops_after, taken, turned, with_line, with_named};

    /// Tells the lines of a node of which nothing is known.
    pub fn new(says: S) -> Teller<S>
        ensures { result.said ≡ S.said says }
    {
        Teller {
            news: News::new(),
            says,
        }
    }

    /// Says a line.
    pub fn say(&mut self, line: &EventLine)
        ensures { self.new ≡ with_line line.now self.old }
    {
        self.news.lines = self.news.lines.saturating_add(1);
        self.says.say(line);
    }

    /// Says a line about the node at the place of a rank.
    fn say_of(&mut self, around: &Around<'_>, mut line: EventLine, rank: usize)
        ensures { self.new ≡ with_named around.now rank line self.old }
    {
        add_name(&mut line, &around.names, rank);
        self.say(&line);
    }

    /// The run made a call and has taken its answer: tells the lines of it, with what surrounds it.
    pub fn tell(&mut self, around: &Around<'_>, asked: Asked, given: Given, run: &NodeRun)
        ensures { IsTold around.now asked given run.now self.old self.new }
    {
        let events = self.news.observer.made(asked, given, run);
        let is_turn = takes(asked, given, run);
        self.tell_call(around, is_turn, run.entry(), events.as_slice());
    }

    /// Tells these events of a turn, in which the node was handed that entry, or of another call.
    fn tell_call(&mut self, around: &Around<'_>, is_turn: bool, entry: What, events: &[Event])
        ensures { self.new ≡ call_told around.now is_turn entry events.now self.old }
    {
        if is_turn {
            self.turn(around, entry, events);
        } else {
            self.tell_events(around, events);
        }
    }

    /// Takes what is known by a call with its answer, whose bytes are that, at that tick of the node. No line is told of it here.
    pub fn take(&mut self, asked: Asked, given: Given, decoded: Decoded, tick: u64)
        ensures { self.new ≡ taken asked given decoded tick self.old }
    {
        self.news.call(asked, given, decoded, tick);
    }

    /// A turn began in which the node was handed that entry, of which these events are told: what came before the turn, the entry, the events,
    /// and what is said seldom.
    fn turn(&mut self, around: &Around<'_>, entry: What, events: &[Event])
        ensures { self.new ≡ turned around.now entry events.now self.old }
    {
        let entered = Entered::of(entry);
        self.enter(around, entered);
        self.greet(around);
        self.miss(around);
        self.tell_device(around, entered);
        self.tell_image(around);
        self.tell_events(around, events);
        self.tell_seldom(around);
    }

    /// The node was handed that: tells of its mailbox.
    fn enter(&mut self, around: &Around<'_>, entered: Entered)
        ensures { self.new ≡ entered_told around.now entered self.old }
    {
        match entered {
            Entered::Header(msgwait) => self.news.msgwait = msgwait,
            Entered::Mail(seen) => if let Some(news) = self.news.mailbox.take(seen, around.tick) {
                self.say(&mail_line(around.at, news));
            },
            Entered::Stopped(ok) => self.news.stops.take(ok, around.tick),
            Entered::View | Entered::Device(_) | Entered::Nothing => {}
        }
    }

    /// Tells of a node that is heard now.
    fn greet(&mut self, around: &Around<'_>)
        ensures { self.new ≡ greeted around.now self.old }
    {
        let Some(rank) = self.news.greeted else {
            return;
        };
        self.news.greeted = None;
        if usize::from(rank.0) < around.nodes.len() && rank.0 != around.me.0 {
            self.hear(around, rank);
        }
    }

    /// The node of that rank is heard: tells that, and of the networks to it.
    fn hear(&mut self, around: &Around<'_>, rank: Rank)
        ensures { self.new ≡ peer_heard around.now rank self.old }
    {
        let (place, id) = (usize::from(rank.0), around.nodes.id_of(rank));
        if self.news.peers.hear(rank, around.tick) {
            self.say_of(around, peer_seen(around.at, id), place);
        }
        self.tell_network(around, place, id);
    }

    /// Tells of nodes that are heard no more.
    #[tactic(auto, unfolding(crate::specs::Telling::missed_from))]
    fn miss(&mut self, around: &Around<'_>)
        ensures { self.new ≡ missed around.now self.old }
    {
        for (rank, node) in around.nodes.as_slice().iter().enumerate() {
            self.miss_peer(around, rank, node.id);
        }
    }

    fn miss_peer(&mut self, around: &Around<'_>, rank: usize, id: NodeId)
        ensures { self.new ≡ peer_missed around.now rank id self.old }
    {
        if let Some(silent) = self.news.peers.lose(rank, around.tick, around.loop_ms) {
            self.say_of(around, peer_lost(around.at, id, silent), rank);
        }
    }

    /// Tells of a network that is lost to the node at the place of a rank, or is back.
    fn tell_network(&mut self, around: &Around<'_>, rank: usize, id: NodeId)
        ensures { self.new ≡ network_told around.now rank id self.old }
    {
        let before = self.news.peers.lose_network(rank, around.lost);
        if is_same(before, around.lost) {
            return;
        }
        if let Some(network) = before {
            self.say_of(around, network_back(around.at, network, id), rank);
        }
        if let Some(network) = around.lost {
            self.say_of(around, network_lost(around.at, network, id), rank);
        }
    }

    /// Tells of the arbiter that the node polls: its answer, and that it is silent.
    fn tell_device(&mut self, around: &Around<'_>, entered: Entered)
        ensures { self.new ≡ device_told around.now entered self.old }
    {
        if let Some(agrees) = self.news.device.take(entered, around.tick, around.view) {
            self.say(&device_answered(around.at, agrees, around.view));
        }
        self.miss_device(around);
    }

    fn miss_device(&mut self, around: &Around<'_>)
        ensures { self.new ≡ silence_told around.now self.old }
    {
        if let Some(age) = self.news.device.miss(around.tick, around.timeout) {
            self.say(&device_silent(around.at, age));
        }
    }

    /// Tells of one of three images that it is lost, or is back.
    fn tell_image(&mut self, around: &Around<'_>)
        ensures { self.new ≡ image_told around.now self.old }
    {
        self.news.open(around.opened);
        if let Some(news) = self.news.images.news() {
            self.say(&image_line(around.at, news));
        }
    }

    /// Tells events.
    #[tactic(auto, unfolding(crate::specs::Telling::events_told))]
    fn tell_events(&mut self, around: &Around<'_>, events: &[Event])
        ensures { self.new ≡ events_told around.now events.now self.old }
    {
        for event in events {
            self.tell_event(around, event);
        }
    }

    /// Tells an event; of stops that fail one after the other the first, and how many they were once one succeeds.
    fn tell_event(&mut self, around: &Around<'_>, event: &Event)
        ensures { self.new ≡ event_told around.now event.now self.old }
    {
        let Some(failed) = self.failed_before(around, event) else {
            return;
        };
        let mut line = event_line(around.at, around.nodes, self.news.msgwait, event);
        add_failed(&mut line, failed);
        match subject_of(event, around.me) {
            Some(rank) => self.say_of(around, line, usize::from(rank.0)),
            None => self.say(&line),
        }
    }

    /// How many stops failed before what an event tells; None where it is not told.
    fn failed_before(&mut self, around: &Around<'_>, event: &Event) -> Option<u64>
        ensures failed { result ≡ failed_before around.now event.now self.old.news.stops }
        ensures after { self.new ≡ record self.old {
          news = record self.old.news { stops = stops_after around.now event.now self.old.news.stops };
        } }
    {
        match *event {
            Event::StopAsked => {
                let is_told = self.news.stops.ask(around.tick, around.loop_ms);
                is_told.then_some(0)
            }
            Event::StopAnswered { ok } => self.news.stops.answer(ok),
            Event::Phase { .. }
            | Event::Claimed { .. }
            | Event::View { .. }
            | Event::Released
            | Event::QuorumWon { .. }
            | Event::QuorumLost { .. }
            | Event::Why { .. }
            | Event::FenceAsked { .. }
            | Event::FenceWritten { .. }
            | Event::Licence { .. }
            | Event::StartAsked
            | Event::StartAnswered { .. }
            | Event::DisarmAnswered { .. }
            | Event::HoldWon
            | Event::HoldLost
            | Event::Halt { .. } => Some(0),
        }
    }

    /// Tells of what happens often, where that is due.
    fn tell_seldom(&mut self, around: &Around<'_>)
        ensures { self.new ≡ seldom_told around.now self.old }
    {
        if let Some(count) = self.news.late.due(around.tick) {
            self.say(&feeds_failed(around.at, count));
        }
        if let Some(count) = self.news.refused.due(around.tick) {
            self.say(&packets_refused(around.at, count));
        }
    }
}

/// Whether the run took an entry in at this call: a look at the clock that did not go back.
fn takes(asked: Asked, given: Given, run: &NodeRun) -> bool
    ensures { result ≡ takes asked given run.now }
{
    matches!(asked, Asked::Now) && given.tick == run.tick()
}

/// Whether there is one number, or none both times.
fn is_same(one: Option<u64>, other: Option<u64>) -> bool
    ensures { result ≡ is_same one other }
{
    match (one, other) {
        (Some(one), Some(other)) => one == other,
        (None, None) => true,
        (Some(_), None) | (None, Some(_)) => false,
    }
}

/// What is told of the mailbox.
fn mail_line(at: Moment, news: MailNews) -> EventLine
    ensures { result ≡ mail_line at news }
{
    match news {
        MailNews::Message(mail) => mail_told(at, mail),
        MailNews::Damaged => mail_damaged(at),
        MailNews::Failed => mail_failed(at),
    }
}

/// What is told of an image.
fn image_line(at: Moment, news: ImageNews) -> EventLine
    ensures { result ≡ image_line at news }
{
    if news.is_lost {
        image_lost(at, news.image)
    } else {
        image_back(at, news.image)
    }
}

/// Of which node an event of the node of that rank tells, where its line has an id besides that of its own node, or the number of a boot.
fn subject_of(event: &Event, me: Rank) -> Option<Rank>
    ensures { result ≡ subject_of event.now me }
{
    match *event {
        Event::Claimed { .. } => Some(me),
        Event::FenceAsked { of } | Event::FenceWritten { of, .. } | Event::Licence { of } => Some(
            of,
        ),
        Event::Phase { .. }
        | Event::View { .. }
        | Event::Released
        | Event::QuorumWon { .. }
        | Event::QuorumLost { .. }
        | Event::Why { .. }
        | Event::StartAsked
        | Event::StopAsked
        | Event::StartAnswered { .. }
        | Event::StopAnswered { .. }
        | Event::DisarmAnswered { .. }
        | Event::HoldWon
        | Event::HoldLost
        | Event::Halt { .. } => None,
    }
}
