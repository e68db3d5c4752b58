//! The next disk operation of a node that has none out.
use crate::lack::is_rank;
use crate::past::Past;
use crate::phases::{is_leaving, is_up};
use crate::sought::Sought;
use crate::spans::has_passed;
use qn_base::Rank;
use qn_model::{DiskOp, Settings};

impl Past {
    ghost use Rattle.std.specs.Prelude.{◌≡◌, ◌<◌, length};
    ghost use Rattle.qn_plain.specs.Outputs.{fencing_op_at, is_delay_over_at, is_mail_due_at, may_fence_at, to_reset_at, wanted_at};

    /// The next disk operation at a tick, where none is out.
    pub fn wanted(&self, settings: &Settings, me: Rank, tick: u64) -> Option<DiskOp>
        ensures { result ≡ wanted_at settings.now me.0 tick self.now }
    {
        if self.life.op.is_some() {
            None
        } else if self.is_mail_due(tick) {
            Some(DiskOp::ReadMail)
        } else if is_leaving(self.life.phase) && !self.life.holds {
            self.life.claimed.map(DiskOp::WriteClose)
        } else if self.may_fence(settings, me, tick) {
            self.fencing_op(settings, me, tick)
        } else {
            None
        }
    }

    /// Whether the loop's time has passed since the own mailbox was last asked for.
    fn is_mail_due(&self, tick: u64) -> bool
        ensures { result ≡ is_mail_due_at tick self.now }
    {
        has_passed(self.life.mail_tick, self.life.timing.loop_ms, tick)
    }

    /// Whether the node may fence: up, quorate and chosen.
    fn may_fence(&self, settings: &Settings, me: Rank, tick: u64) -> bool
        ensures { result ≡ may_fence_at settings.now me.0 tick self.now }
    {
        is_up(self.life.phase)
            && self.is_quorate(settings, tick)
            && is_rank(me, self.chosen(settings, me, tick))
    }

    /// The next operation of the fencing: a read of a slot, else a reset.
    fn fencing_op(&self, settings: &Settings, me: Rank, tick: u64) -> Option<DiskOp>
        ensures { result ≡ fencing_op_at settings.now me.0 tick self.now }
    {
        match self.least(settings, Sought::Unread, me, tick) {
            Some(rank) => Some(DiskOp::ReadSlot(rank)),
            None => match self.to_reset(settings, me, tick) {
                Some(rank) => Some(DiskOp::WriteReset(rank)),
                None => None,
            },
        }
    }

    /// The least rank that is left to reset, once its fence delay is over; until then none.
    fn to_reset(&self, settings: &Settings, me: Rank, tick: u64) -> Option<Rank>
        ensures { result ≡ to_reset_at settings.now me.0 tick self.now }
    {
        match self.least(settings, Sought::Unreset, me, tick) {
            Some(rank) if self.is_delay_over(settings, rank, tick) => Some(rank),
            _ => None,
        }
    }

    /// Whether the fence delay of a rank has passed since the last view.
    fn is_delay_over(&self, settings: &Settings, rank: Rank, tick: u64) -> bool
        requires { rank.0 < length settings.now.nodes }
        ensures { result ≡ is_delay_over_at settings.now rank.0 tick self.now }
    {
        let node = settings.nodes.get(usize::from(rank.0));
        has_passed(self.votes.view_tick, node.fence_delay, tick)
    }
}
