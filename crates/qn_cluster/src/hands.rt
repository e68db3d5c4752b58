//! The steps of a cluster: one moment more.
use crate::cluster::Cluster;
use crate::outputs::{MOST_OUTPUTS, send_all, sends};
use qn_base::{NoMemory, Rank};
use qn_model::{Clocks, Outs, What};

impl Cluster {
    ghost use Rattle.std.specs.Prelude.{◌≡◌, ◌<◌, ◌≤◌, ℕ, true, false, Some, OnOk, OnErr, length, slice_get};
    ghost use Rattle.qn_base.specs.declared.limits.TheConstants.{LATEST_TIME};
    ghost use Rattle.qn_model.specs.declared.configuration.Settings.{Settings};
    ghost use Rattle.qn_model.specs.Moments.{Running};
    ghost use Rattle.qn_model.specs.Phases.{is_live, phase};
    ghost use Rattle.qn_node.specs.Node.{phase_of};
    ghost use Rattle.qn_cluster.specs.declared.seat.Seat.{Seat};
    ghost use Rattle.qn_cluster.specs.Seats.{SeatFor};
    ghost use Rattle.qn_cluster.specs.Standing.{HasRoom};
    ghost use Rattle.qn_cluster.specs.Stepping.{Booted, Ended, Fed, Handed, IsPassable, Passed, Unhanded};

    /// Time passes, in milliseconds, and the clocks of the running nodes advance.
    pub fn pass(&mut self, dt: u64, clocks: &Clocks)
        requires short { dt ≤ 1000000000 }
        requires early { self.old.time ≤ LATEST_TIME }
        requires allowed { IsPassable self.old dt clocks.now }
        ensures { Passed self.old self.new dt clocks.now }
    {
        self.advance(dt, clocks);
        self.add_time(dt);
    }

    /// A node boots, as a clean start or not, and its clock stands at this base.
    pub fn boot(&mut self, i: Rank, base: u64, clean: bool, outs: &mut Outs)
        requires within { i.0 < length self.old.seats }
        requires configured { i.0 < length self.old.settings.nodes }
        requires few { self.old.steps < 18446744073709551615 }
        requires early { base ≤ 1000000000000000 }
        ensures { Booted self.old self.new i.0 base clean outs.new }
    {
        self.boot_seat(i, base, clean, outs);
    }

    /// A node is off at once.
    pub fn end(&mut self, i: Rank)
        requires { i.0 < length self.old.seats }
        ensures { Ended self.old self.new i.0 }
    {
        self.switch_off(i);
    }

    /// The last feed that a node decided takes effect.
    pub fn feed(&mut self, i: Rank)
        requires { i.0 < length self.old.seats }
        ensures { Fed self.old self.new i.0 }
    {
        self.take_feed(i);
    }

    /// The running node of a rank is handed an entry. It runs out of memory only where the node sends a packet, and
    /// is then as it was.
    pub fn hand(&mut self, i: Rank, what: What, outs: &mut Outs) -> Result<(), NoMemory>
        requires within { i.0 < length self.old.seats }
        requires room { HasRoom self.old }
        ensures ok { OnOk result (Handed self.old self.new i.0 what outs.new) }
        ensures err { OnErr result (Unhanded self.old self.new i.0 what) }
    {
        if self.seat(i).is_live() {
            self.hand_live(i, what, outs)
        } else {
            self.hand_quiet(i, what, outs);
            Ok(())
        }
    }

    /// The same, where the node takes part in the cluster: it may send.
    fn hand_live(&mut self, i: Rank, what: What, outs: &mut Outs) -> Result<(), NoMemory>
        requires within { i.0 < length self.old.seats }
        requires room { HasRoom self.old }
        requires live { (seat : Seat) → slice_get self.old.seats i.0 ≡ Some seat
            → is_live (phase_of seat.node) ≡ true }
        ensures ok { OnOk result (Handed self.old self.new i.0 what outs.new) }
        ensures err { OnErr result (Unhanded self.old self.new i.0 what) }
    {
        if self.packets.reserve(MOST_OUTPUTS).is_err() {
            return self.hand_copy(i, what, outs);
        }
        self.seats.hand(i, self.time, what, outs);
        send_all(&mut self.packets, outs.as_slice());
        Ok(())
    }

    /// The same, where there was no memory for the packets of an entry: a copy of the node is handed the entry,
    /// and stands in its place where it sent nothing.
    #[inline(never)]
    fn hand_copy(&mut self, i: Rank, what: What, outs: &mut Outs) -> Result<(), NoMemory>
        requires within { i.0 < length self.old.seats }
        requires room { HasRoom self.old }
        requires live { (seat : Seat) → slice_get self.old.seats i.0 ≡ Some seat
            → is_live (phase_of seat.node) ≡ true }
        ensures ok { OnOk result (Handed self.old self.new i.0 what outs.new) }
        ensures err { OnErr result (Unhanded self.old self.new i.0 what) }
    {
        let mut seat = self.seat(i).copy();
        seat.hand(self.time, what, outs);
        if sends(outs.as_slice()) {
            return Err(NoMemory);
        }
        self.reseat(i, seat);
        Ok(())
    }

    /// The same, where it does not: it sends nothing.
    fn hand_quiet(&mut self, i: Rank, what: What, outs: &mut Outs)
        requires within { i.0 < length self.old.seats }
        requires room { HasRoom self.old }
        requires quiet { (seat : Seat) (s : Settings) (me : ℕ) (node : Running)
            → slice_get self.old.seats i.0 ≡ Some seat
            → SeatFor seat s me node
            → node.on ≡ true
            → is_live (phase s node.log) ≡ false }
        ensures { Handed self.old self.new i.0 what outs.new }
    {
        self.hand_seat(i, what, outs);
    }
}
