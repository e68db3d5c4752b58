//! What the events of a soak came to.
ghost use Rattle.std.specs.Prelude.{◌≡◌, ◌≤◌, count_by, length};
ghost use Rattle.qn_replay.specs.Soak.{is_boot, is_crash, is_reset, is_start, is_stop};

use qn_base::Mask;
use qn_model::{DiskOp, Event, Out, Outs};
use qn_world::World;

/// What the events of a soak came to: boots and crashes count events, resets, starts and stops count outputs,
/// and `most_holders` is the greatest number of nodes that held the resource after any event.
#[derive(Clone, Copy, PartialEq, Eq)]
pub(crate) struct Tally {
    pub(crate) boots: u64,
    pub(crate) crashes: u64,
    pub(crate) resets: u64,
    pub(crate) starts: u64,
    pub(crate) stops: u64,
    pub(crate) most_holders: u64,
}

impl Tally {
    ghost use Rattle.std.specs.Prelude.{◌≡◌, ◌≤◌, ℕ, true, false, IsTrue, count_ones, length, max};
    ghost use Rattle.qn_base.specs.Members.{is_member};
    ghost use Rattle.qn_model.specs.declared.reports.Report.{Report};
    ghost use Rattle.qn_model.specs.Log.{has_start};
    ghost use Rattle.qn_model.specs.Steps.{holders};
    ghost use Rattle.qn_model.specs.World.{World as WorldBefore};
    ghost use Rattle.qn_world.specs.Standing.{WorldFor};
    ghost use Rattle.qn_replay.specs.Soak.{GrowsBy, IsWithin, counted, nothing_tallied, tallied};

    /// Nothing happened yet.
    pub(crate) fn new() -> Tally
        ensures { result ≡ nothing_tallied }
    {
        Tally {
            boots: 0,
            crashes: 0,
            resets: 0,
            starts: 0,
            stops: 0,
            most_holders: 0,
        }
    }

    /// Adds an event that a world took, and its outputs. The holders are counted only where there is a Start: after another
    /// event only nodes hold that held before.
    pub(crate) fn add(&mut self, event: &Event, outs: &Outs, world: &World)
        requires { IsWithin 8000000 self.old }
        ensures tally { (d : WorldBefore) (report : Report)
            → WorldFor world.now d
            → report.outs ≡ outs.now
            → report.holders ≡ holders world.now.settings d
            → (has_start outs.now ≡ false → count_ones report.holders.0 ≤ self.old.most_holders)
            → self.new ≡ tallied event.now report self.old }
        ensures one_holder { has_start outs.now ≡ true
            → (d : WorldBefore)
            → WorldFor world.now d
            → (i j : ℕ)
            → IsTrue (is_member (holders world.now.settings d) i)
            → IsTrue (is_member (holders world.now.settings d) j)
            → i ≡ j }
        ensures grows { GrowsBy 40 self.old self.new }
    {
        self.add_counts(event, outs.as_slice());
        if outs.has_start() {
            self.count_holders(world.holders());
        }
    }

    /// Adds what an event and its outputs count.
    fn add_counts(&mut self, event: &Event, outs: &[Out])
        requires within { IsWithin 8000000 self.old }
        requires few { length outs.now ≤ 40 }
        ensures counts { self.new ≡ counted event.now outs.now self.old }
        ensures grows { GrowsBy 40 self.old self.new }
    {
        self.boots += u64::from(is_boot(event));
        self.crashes += u64::from(is_crash(event));
        if outs.is_empty() {
            return;
        }
        self.resets += count_resets(outs);
        self.starts += count_starts(outs);
        self.stops += count_stops(outs);
    }

    /// The greatest number of holders, where these are one more.
    fn count_holders(&mut self, holders: Mask)
        ensures { self.new ≡ record self.old {
          most_holders = max self.old.most_holders (count_ones holders.0);
        } }
    {
        let holders = u64::from(holders.0.count_ones());
        self.most_holders = self.most_holders.max(holders);
    }
}

fn is_boot(event: &Event) -> bool
    ensures { result ≡ is_boot event.now }
{
    matches!(event, Event::Boot(..) | Event::BootClean(..))
}

fn is_crash(event: &Event) -> bool
    ensures { result ≡ is_crash event.now }
{
    matches!(event, Event::Crash(_))
}

fn count_resets(outs: &[Out]) -> u64
    ensures value { result ≡ count_by is_reset outs.now }
    ensures few { result ≤ length outs.now }
{
    outs.iter()
        .filter(|out| matches!(**out, Out::Disk(DiskOp::WriteReset(_))))
        .count() as u64
}

fn count_starts(outs: &[Out]) -> u64
    ensures value { result ≡ count_by is_start outs.now }
    ensures few { result ≤ length outs.now }
{
    outs.iter()
        .filter(|out| matches!(**out, Out::Start))
        .count() as u64
}

fn count_stops(outs: &[Out]) -> u64
    ensures value { result ≡ count_by is_stop outs.now }
    ensures few { result ≤ length outs.now }
{
    outs.iter().filter(|out| matches!(**out, Out::Stop)).count() as u64
}
