//! The ten rules that an event has to obey. Those that look at nodes alone are rules of `qn_cluster`.
ghost use Rattle.std.specs.Prelude.{◌≡◌, is_some, not, ◌&&◌, ◌||◌};
ghost use Rattle.qn_model.specs.Sectors.{is_deadly};

use crate::pending::has_landed;
use crate::state::State;
use qn_base::Rank;
use qn_cluster::{HasNodes, unless};
use qn_model::{DiskOp, Message, What};

/// Whether an operator may write a message over the one that is there, to a node that runs or is off.
fn may_operate(message: Message, there: Message, on: bool) -> bool
    ensures { result ≡ (is_deadly message || not (is_deadly there) || not on) }
{
    message.is_deadly() || !there.is_deadly() || !on
}

/// Whether an operation is out and has not landed.
fn is_under_way(op: Option<DiskOp>, took: Option<What>) -> bool
    ensures { result ≡ (is_some op && not (is_some took)) }
{
    op.is_some() && took.is_none()
}

impl State {
    ghost use Rattle.std.specs.Prelude.{◌≡◌, ◌<◌, ◌≤◌, true, length};
    ghost use Rattle.qn_model.specs.Rules.{is_on, may_be_done, may_be_late, may_fail, may_land, may_operate, unless, unless_running};
    ghost use Rattle.qn_model.specs.World.{World};
    ghost use Rattle.qn_world.specs.Standing.{WorldFor};

    /// Whether the operation of a running node is out and has not landed.
    fn may_land(&self, i: Rank) -> bool
        requires within { i.0 < length self.now.seats }
        requires few { i.0 < 32 }
        ensures { (d : World) → WorldFor self.now d → is_on self.now.settings i.0 d ≡ true
            → result ≡ may_land self.now.settings i.0 d }
    {
        let op = self.op(i);
        let took = self.took(i);
        is_under_way(op, took)
    }

    /// Whether the operation of a running node is out and has landed.
    fn may_be_done(&self, i: Rank) -> bool
        requires within { i.0 < length self.now.seats }
        requires few { i.0 < 32 }
        ensures { (d : World) → WorldFor self.now d → is_on self.now.settings i.0 d ≡ true
            → result ≡ may_be_done self.now.settings i.0 d }
    {
        let op = self.op(i);
        let took = self.took(i);
        has_landed(op, took)
    }

    /// Rules 3 and 4.
    pub(crate) fn refuses_land(&self, i: Rank) -> Option<u8>
        requires within { i.0 < length self.now.seats }
        requires few { i.0 < 32 }
        ensures { (d : World) → WorldFor self.now d
            → result ≡ unless_running self.now.settings i.0 d
            (unless (may_land self.now.settings i.0 d) 4) }
    {
        self.cluster.unless_running(i, unless(self.may_land(i), 4))
    }

    /// Rules 3 and 5, of an answer.
    pub(crate) fn refuses_done(&self, i: Rank) -> Option<u8>
        requires within { i.0 < length self.now.seats }
        requires few { i.0 < 32 }
        ensures { (d : World) → WorldFor self.now d
            → result ≡ unless_running self.now.settings i.0 d
            (unless (may_be_done self.now.settings i.0 d) 5) }
    {
        self.cluster
            .unless_running(i, unless(self.may_be_done(i), 5))
    }

    /// Rules 3 and 5, of a failure.
    pub(crate) fn refuses_fail(&self, i: Rank) -> Option<u8>
        requires { i.0 < length self.now.seats }
        ensures { (d : World) → WorldFor self.now d
            → result ≡ unless_running self.now.settings i.0 d
            (unless (may_fail self.now.settings i.0 d) 5) }
    {
        self.cluster
            .unless_running(i, unless(self.op(i).is_some(), 5))
    }

    /// Rule 6: there is a leftover of that number.
    pub(crate) fn refuses_late(&self, i: Rank, number: u64) -> Option<u8>
        requires { 1 ≤ number }
        ensures { (d : World) → WorldFor self.now d → result ≡ unless (may_be_late i.0 number d) 6 }
    {
        unless(self.has_left(i, number), 6)
    }

    /// Rule 10: the message is deadly, or the mailbox holds no deadly one, or the node is off.
    pub(crate) fn refuses_operator(&self, i: Rank, message: Message) -> Option<u8>
        requires within { i.0 < length self.now.seats }
        requires few { i.0 < 32 }
        ensures { (d : World) → WorldFor self.now d
            → result ≡ unless (may_operate self.now.settings i.0 message d) 10 }
    {
        unless(
            may_operate(message, self.mailbox(i), self.cluster.is_on(i)),
            10,
        )
    }
}
