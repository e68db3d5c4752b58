//! The rules that look at nodes alone: 1, 2, 3, 5 of a Stop, 7, 8 and 9.
ghost use Rattle.std.specs.Prelude.{◌≡◌, ◌<◌, ◌≤◌, ℕ, None, Some, nat_le, is_some, not, ◌&&◌, ◌||◌};
ghost use Rattle.qn_model.specs.Rules.{is_within_bounds, outlives, unless};

use crate::clocks::advance_of;
use crate::cluster::Cluster;
use crate::seat::Seat;
use qn_base::{Rank, View};
use qn_model::{Clocks, Timing};

/// The rule of that number refuses unless its test holds.
pub fn unless(holds: bool, rule: u8) -> Option<u8>
    ensures { result ≡ unless holds rule }
{
    if holds { None } else { Some(rule) }
}

/// Whether a clock keeps its bounds of one per cent.
fn is_within_bounds(dt: u64, advance: u64) -> bool
    requires { dt ≤ 1000000000 }
    ensures { result ≡ is_within_bounds dt advance }
{
    99 * dt <= advance && advance <= 101 * dt
}

impl Seat {
    ghost use Rattle.std.specs.Prelude.{◌≡◌, ◌<◌, ◌≤◌, ◌+◌, ◌*◌, ◌&&◌, ℕ, nat_le, not, if◌then◌else◌, true};
    ghost use Rattle.std.specs.Option.{option_map_or};
    ghost use Rattle.qn_base.specs.declared.limits.TheConstants.{LATEST_TIME, LONGEST_PERIOD};
    ghost use Rattle.qn_model.specs.Rules.{is_within_bounds, outlives};
    ghost use Rattle.qn_cluster.specs.Tests.{decided_lately, lives_through};

    /// Whether a feed was decided at most so long ago.
    fn may_feed(&self, time: u64, delay: u64) -> bool
        ensures { result ≡ decided_lately time delay self.now.decided }
    {
        match self.decided {
            Some(decided) => time.saturating_sub(decided) <= delay,
            None => false,
        }
    }

    /// Whether the node lives through a pass to that time: its clock keeps its bounds, and its watchdog does not end it.
    fn passes(&self, dt: u64, advance: u64, later: u64, watchdog: u64) -> bool
        requires short { dt ≤ 1000000000 }
        requires early { later ≤ LATEST_TIME + 1000000000 }
        requires period { watchdog ≤ LONGEST_PERIOD }
        ensures { result ≡ lives_through watchdog dt advance later self.now }
    {
        !self.on
            || is_within_bounds(dt, advance)
                && 99 * later.saturating_sub(self.fed) <= 100 * watchdog
    }
}

impl Cluster {
    ghost use Rattle.std.specs.Prelude.{◌≡◌, ◌<◌, ◌≤◌, ◌+◌, ◌∷◌, ℕ, true, not, None, Some, Option, length, slice_get};
    ghost use Rattle.std.specs.Option.{option_map_or, option_or};
    ghost use Rattle.qn_base.specs.declared.limits.TheConstants.{LATEST_TIME, LONGEST_PERIOD};
    ghost use Rattle.qn_base.specs.Members.{is_member};
    ghost use Rattle.qn_model.specs.Rules.{is_on, is_well_formed, may_be_stopped, may_deliver, may_feed, may_pass, unless, unless_running};
    ghost use Rattle.qn_model.specs.Timing.{is_safe};
    ghost use Rattle.std.specs.List.{list_all, range_with_len};
    ghost use Rattle.qn_base.specs.declared.ids.Rank.{Rank};
    ghost use Rattle.qn_model.specs.declared.events.Event.TheVariants as event;
    ghost use Rattle.qn_model.specs.World.{World};
    ghost use Rattle.qn_cluster.specs.declared.seat.Seat.{Seat};
    ghost use Rattle.qn_cluster.specs.Standing.{ClusterFor, IsStanding};
    ghost use Rattle.qn_cluster.specs.Tests.{on_at, passes_at};

    /// Rule 3, and then another one: the node is running.
    pub fn unless_running(&self, i: Rank, other: Option<u8>) -> Option<u8>
        requires { i.0 < length self.now.seats }
        ensures { (d : World) (theirs : Option ℕ)
            → ClusterFor self.now d.moments
            → (is_on self.now.settings i.0 d ≡ true → other ≡ theirs)
            → result ≡ unless_running self.now.settings i.0 d theirs }
    {
        unless(self.seat(i).on, 3).or(other)
    }

    /// Rule 1: every named clock is that of a running node, and every running node lives through the pass.
    pub fn refuses_pass(&self, dt: u64, clocks: &Clocks, timing: &Timing) -> Option<u8>
        requires formed { is_well_formed self.now.settings (event.Pass dt clocks.now) ≡ true }
        requires standing { IsStanding self.now }
        requires safe { is_safe timing.now ≡ true }
        requires early { self.now.time ≤ LATEST_TIME }
        ensures { (d : World) → ClusterFor self.now d.moments
            → result ≡ unless (may_pass self.now.settings timing.now dt clocks.now d) 1 }
    {
        unless(
            self.are_on(clocks) && self.all_pass(dt, clocks, timing.watchdog),
            1,
        )
    }

    /// Whether every named clock is that of a running node.
    fn are_on(&self, clocks: &Clocks) -> bool
        requires { (place : ℕ) (clock : Rank × ℕ) → slice_get clocks.now place ≡ Some clock
            → clock.0.0 < length self.now.seats }
        ensures { result ≡ list_all (λ clock. on_at self.now clock.0.0) clocks.now }
    {
        for place in 0..clocks.len() {
            if !self.is_on(clocks.get(place).0) {
                return false;
            }
        }
        true
    }

    /// Whether the node of a rank is running.
    pub fn is_on(&self, i: Rank) -> bool
        requires { i.0 < length self.now.seats }
        ensures exact { (d : World) → ClusterFor self.now d.moments
            → result ≡ is_on self.now.settings i.0 d }
        ensures seat { result ≡ on_at self.now i.0 }
    {
        self.seat(i).on
    }

    /// Whether every running node lives through the pass.
    fn all_pass(&self, dt: u64, clocks: &Clocks, watchdog: u64) -> bool
        requires short { dt ≤ 1000000000 }
        requires early { self.now.time ≤ LATEST_TIME }
        requires period { watchdog ≤ LONGEST_PERIOD }
        requires few { length self.now.seats ≤ 32 }
        ensures { result
            ≡ list_all (passes_at watchdog self.now dt clocks.now)
            (range_with_len 0 (length self.now.seats)) }
    {
        for rank in 0..self.seats.len() {
            if !self.passes(Rank(rank as u8), dt, clocks, watchdog) {
                return false;
            }
        }
        true
    }

    /// Whether the node of a rank, if it is running, lives through the pass.
    fn passes(&self, i: Rank, dt: u64, clocks: &Clocks, watchdog: u64) -> bool
        requires within { i.0 < length self.now.seats }
        requires short { dt ≤ 1000000000 }
        requires early { self.now.time ≤ LATEST_TIME }
        requires period { watchdog ≤ LONGEST_PERIOD }
        ensures { result ≡ passes_at watchdog self.now dt clocks.now i.0 }
    {
        let advance = advance_of(dt, clocks, i);
        self.seat(i).passes(dt, advance, self.time + dt, watchdog)
    }

    /// Rule 2: the node is off.
    pub fn refuses_boot(&self, i: Rank) -> Option<u8>
        requires { i.0 < length self.now.seats }
        ensures { (d : World) → ClusterFor self.now d.moments
            → result ≡ unless (not (is_on self.now.settings i.0 d)) 2 }
    {
        unless(!self.seat(i).on, 2)
    }

    /// Rule 3 alone.
    pub fn refuses_off(&self, i: Rank) -> Option<u8>
        requires { i.0 < length self.now.seats }
        ensures { (d : World) → ClusterFor self.now d.moments
            → result ≡ unless_running self.now.settings i.0 d None }
    {
        self.unless_running(i, None)
    }

    /// Rules 3 and 5, of a Stop.
    pub fn refuses_stopped(&self, i: Rank) -> Option<u8>
        requires { i.0 < length self.now.seats }
        ensures { (d : World) → ClusterFor self.now d.moments
            → result ≡ unless_running self.now.settings i.0 d
            (unless (may_be_stopped self.now.settings i.0 d) 5) }
    {
        self.unless_running(i, unless(self.seat(i).stop_due, 5))
    }

    /// Rules 3 and 7: the members contain the node.
    pub fn refuses_view(&self, i: Rank, view: View) -> Option<u8>
        requires { i.0 < length self.now.seats }
        ensures { (d : World) → ClusterFor self.now d.moments
            → result ≡ unless_running self.now.settings i.0 d
            (unless (is_member view.members i.0) 7) }
    {
        self.unless_running(i, unless(view.members.has(i), 7))
    }

    /// Rules 3 and 8: the packet of that number was sent to the node.
    pub fn refuses_deliver(&self, i: Rank, number: u64) -> Option<u8>
        requires { i.0 < length self.now.seats }
        ensures { (d : World) → ClusterFor self.now d.moments
            → result ≡ unless_running self.now.settings i.0 d
            (unless (may_deliver self.now.settings i.0 number d) 8) }
    {
        self.unless_running(i, unless(self.may_deliver(i, number), 8))
    }

    /// Whether the packet of that number was sent to the node.
    fn may_deliver(&self, i: Rank, number: u64) -> bool
        ensures { (d : World) → ClusterFor self.now d.moments
            → result ≡ may_deliver self.now.settings i.0 number d }
    {
        match self.packet(number) {
            Some(sent) => sent.to.0 == i.0,
            None => false,
        }
    }

    /// Rules 3 and 9: a feed was decided since the boot, and at most the feed delay ago.
    pub fn refuses_feed(&self, i: Rank, timing: &Timing) -> Option<u8>
        requires { i.0 < length self.now.seats }
        ensures { (d : World) → ClusterFor self.now d.moments
            → result ≡ unless_running self.now.settings i.0 d
            (unless (may_feed self.now.settings timing.now i.0 d) 9) }
    {
        self.unless_running(
            i,
            unless(self.seat(i).may_feed(self.time, timing.feed_delay), 9),
        )
    }
}
