//! The events that change nodes alone, and the rules that look at nodes alone.
use crate::cluster::Cluster;
use crate::entries::entry_of;
use qn_base::{NoMemory, Rank};
use qn_model::{Event, Outs, Timing, What};

impl Cluster {
    ghost use Rattle.std.specs.Prelude.{◌≡◌, ◌≤◌, true, [], OnOk, OnErr};
    ghost use Rattle.qn_base.specs.declared.limits.TheConstants.{LATEST_TIME};
    ghost use Rattle.qn_cluster.specs.Events.{CanStep, Starved, Stepped, is_ruled_by_nodes};
    ghost use Rattle.qn_cluster.specs.Standing.{ClusterFor, IsStanding};
    ghost use Rattle.qn_model.specs.Rules.{is_well_formed, refusal};
    ghost use Rattle.qn_model.specs.Timing.{is_safe};
    ghost use Rattle.qn_model.specs.World.{World};

    /// The number of the rule that refuses an event whose rule looks at nodes alone.
    #[inline(always)]
    pub fn refusal(&self, event: &Event, timing: &Timing) -> Option<u8>
        requires formed { is_well_formed self.now.settings event.now ≡ true }
        requires standing { IsStanding self.now }
        requires safe { is_safe timing.now ≡ true }
        requires early { self.now.time ≤ LATEST_TIME }
        requires nodes { is_ruled_by_nodes event.now ≡ true }
        ensures { (d : World) → ClusterFor self.now d.moments
            → result ≡ refusal self.now.settings timing.now event.now d }
    {
        match event {
            Event::Pass { dt, clocks } => self.refuses_pass(*dt, clocks, timing),
            Event::Boot(i, _) => self.refuses_boot(*i),
            Event::BootClean(i, _) => self.refuses_boot(*i),
            Event::Crash(i) => self.refuses_off(*i),
            Event::Device(i, _) => self.refuses_off(*i),
            Event::Tick(i) => self.refuses_off(*i),
            Event::Leave(i) => self.refuses_off(*i),
            Event::Stopped(i) => self.refuses_stopped(*i),
            Event::Unstopped(i) => self.refuses_stopped(*i),
            Event::View(i, view) => self.refuses_view(*i, *view),
            Event::Deliver(i, number) => self.refuses_deliver(*i, *number),
            Event::Feed(i) => self.refuses_feed(*i, timing),
            Event::Land(_)
            | Event::Done(_)
            | Event::Fail(_)
            | Event::Late(_, _)
            | Event::Operator(_, _) => None,
        }
    }

    /// The step of an event that changes nodes alone. It runs out of memory only where a node sends a packet, and the
    /// cluster is then as it was.
    #[inline(always)]
    pub fn step(&mut self, event: &Event, outs: &mut Outs) -> Result<(), NoMemory>
        requires ready { CanStep self.old event.now }
        requires none { outs.old ≡ [] }
        ensures ok { OnOk result (Stepped self.old self.new event.now outs.new) }
        ensures err { OnErr result (Starved self.old self.new event.now) }
    {
        match event {
            Event::Pass { dt, clocks } => {
                self.pass(*dt, clocks);
                Ok(())
            }
            Event::View(i, view) => self.hand(*i, What::View(*view), outs),
            Event::Deliver(i, number) => self.deliver(*i, *number, outs),
            Event::Device(i, yes) => self.hand(*i, What::Device(*yes), outs),
            Event::Tick(i) => self.hand(*i, What::Tick, outs),
            Event::Stopped(i) => self.hand(*i, What::Stopped(true), outs),
            Event::Unstopped(i) => self.hand(*i, What::Stopped(false), outs),
            Event::Leave(i) => self.hand(*i, What::Leave, outs),
            Event::Feed(i) => {
                self.feed(*i);
                Ok(())
            }
            Event::Boot(_, _)
            | Event::BootClean(_, _)
            | Event::Crash(_)
            | Event::Land(_)
            | Event::Done(_)
            | Event::Fail(_)
            | Event::Late(_, _)
            | Event::Operator(_, _) => Ok(()),
        }
    }

    /// A node is handed a packet.
    fn deliver(&mut self, i: Rank, number: u64, outs: &mut Outs) -> Result<(), NoMemory>
        requires { CanStep self.old (Event.Deliver i number) }
        ensures ok { OnOk result (Stepped self.old self.new (Event.Deliver i number) outs.new) }
        ensures err { OnErr result (Starved self.old self.new (Event.Deliver i number)) }
    {
        if let Some(sent) = self.packet(number) {
            self.hand(i, entry_of(sent.packet), outs)?;
        }
        Ok(())
    }
}
