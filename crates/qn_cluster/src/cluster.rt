//! What a cluster keeps, and the small changes of it.
use crate::packets::Packets;
use crate::seat::Seat;
use crate::seats::Seats;
use qn_base::Rank;
use qn_model::{Clocks, Outs, Settings, What};
use std::marker::Model;

/// The nodes of a cluster in true time, a seat for each by rank, and the packets that were sent.
#[derive(Drop)]
pub struct Cluster {
    pub(crate) settings: Settings,
    pub(crate) time: u64,
    pub(crate) seats: Seats,
    pub(crate) packets: Packets,
    pub(crate) steps: u64,
}

impl Model for Cluster {
    ghost use Rattle.qn_cluster.specs.Nodes.{Nodes};
    ghost use Rattle.qn_cluster.specs.Packets.{sents};

    ghost Value = { Nodes };

    ghost view = { λ c. record {
      settings = c.settings;
      time = c.time;
      seats = c.seats;
      packets = sents c.packets;
      steps = c.steps;
    } };
}

impl Cluster {
    ghost use Rattle.std.specs.Prelude.{◌≡◌, ◌<◌, ◌+◌, ◌^◌, ◌≤◌, ℕ, true, false, Some, length, slice_get, slice_set};
    ghost use Rattle.std.specs.Option.{option_map};
    ghost use Rattle.qn_model.specs.Moments.{advance_of};
    ghost use Rattle.qn_cluster.specs.declared.seat.Seat.{Seat};
    ghost use Rattle.qn_cluster.specs.Seats.{BootedSeat, HandedSeat, advanced_seat};
    ghost use Rattle.qn_cluster.specs.Standing.{HasRoom};

    /// The settings of the cluster.
    pub fn settings(&self) -> &Settings
        ensures { result.now ≡ self.now.settings }
    {
        &self.settings
    }

    /// The true time, in milliseconds.
    pub fn time(&self) -> u64
        ensures { result ≡ self.now.time }
    {
        self.time
    }

    /// How many steps are left.
    pub fn steps_left(&self) -> u64
        ensures { result ≡ self.now.steps }
    {
        self.steps
    }

    /// So many steps are left from now on; a node has one more than the cluster during an event.
    pub fn set_steps(&mut self, steps: u64)
        ensures { self.new ≡ record self.old { steps = steps } }
    {
        self.steps = steps;
    }

    /// The seat of a rank.
    pub(crate) fn seat(&self, i: Rank) -> &Seat
        requires { i.0 < length self.now.seats }
        ensures { slice_get self.now.seats i.0 ≡ Some result.now }
    {
        self.seats.get(i)
    }

    /// Another seat in place of that of a rank.
    pub(crate) fn reseat(&mut self, i: Rank, seat: Seat)
        requires { i.0 < length self.old.seats }
        ensures { self.new ≡ record self.old { seats = slice_set self.old.seats i.0 seat } }
    {
        self.seats.set(i, seat);
    }

    /// The seat of a rank is off.
    pub(crate) fn switch_off(&mut self, i: Rank)
        requires { i.0 < length self.old.seats }
        ensures { (seat : Seat) → slice_get self.old.seats i.0 ≡ Some seat
            → self.new ≡ record self.old {
              seats = slice_set self.old.seats i.0
                  (record seat { on = false });
            } }
    {
        self.seats.switch_off(i);
    }

    /// The last feed of a rank that was decided takes effect.
    pub(crate) fn take_feed(&mut self, i: Rank)
        requires { i.0 < length self.old.seats }
        ensures { (seat : Seat) → slice_get self.old.seats i.0 ≡ Some seat
            → self.new ≡ record self.old {
              seats = slice_set self.old.seats i.0
                  (record seat { fed = self.old.time });
            } }
    {
        self.seats.feed(i, self.time);
    }

    /// The seat of a running node is handed an entry.
    pub(crate) fn hand_seat(&mut self, i: Rank, what: What, outs: &mut Outs)
        requires within { i.0 < length self.old.seats }
        requires room { HasRoom self.old }
        ensures { (old : Seat) → slice_get self.old.seats i.0 ≡ Some old
            → (new : Seat)
            × (self.new ≡ record self.old { seats = slice_set self.old.seats i.0 new })
            × HandedSeat old new self.old.time what outs.new }
    {
        self.seats.hand(i, self.time, what, outs);
    }

    /// The seat of a node that is off boots, as a clean start or not.
    pub(crate) fn boot_seat(&mut self, i: Rank, base: u64, clean: bool, outs: &mut Outs)
        requires within { i.0 < length self.old.seats }
        requires configured { i.0 < length self.old.settings.nodes }
        ensures { (new : Seat)
            × (self.new ≡ record self.old { seats = slice_set self.old.seats i.0 new })
            × BootedSeat new self.old.settings i.0 self.old.time base clean outs.new }
    {
        self.seats
            .boot(&self.settings, i, self.time, base, clean, outs);
    }

    /// Each running node's clock advances.
    pub(crate) fn advance(&mut self, dt: u64, clocks: &Clocks)
        requires short { dt ≤ 1000000000 }
        requires few { length self.old.seats ≤ 32 }
        requires fits { (rank : ℕ) (seat : Seat) → slice_get self.old.seats rank ≡ Some seat
            → seat.on ≡ true
            → seat.clock + advance_of dt clocks.now rank < 2 ^ 64 }
        ensures rest { self.new ≡ record self.old { seats = self.new.seats } }
        ensures count { length self.new.seats ≡ length self.old.seats }
        ensures seats { (rank : ℕ)
            → slice_get self.new.seats rank
            ≡ option_map (advanced_seat (advance_of dt clocks.now rank))
            (slice_get self.old.seats rank) }
    {
        self.seats.advance(dt, clocks);
    }

    /// So many milliseconds pass.
    pub(crate) fn add_time(&mut self, dt: u64)
        requires { self.old.time + dt < 2 ^ 64 }
        ensures { self.new ≡ record self.old { time = self.old.time + dt } }
    {
        self.time += dt;
    }
}
