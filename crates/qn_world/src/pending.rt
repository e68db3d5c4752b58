//! What is pending at a node of the world: what is known of it without a count of votes.
ghost use Rattle.std.specs.Prelude.{◌≡◌, ◌&&◌, is_some};

use crate::state::State;
use qn_base::Rank;
use qn_model::{DiskOp, What};

/// What is pending at one node. Of a node that is off, running, out, landed and stop_due are false, fed is 0 and
/// decided is None.
#[derive(Clone, Copy, PartialEq, Eq)]
pub struct Pending {
    pub running: bool,
    /// The true time of the last feed that took effect, or of the boot, in milliseconds.
    pub fed: u64,
    /// The true time of the last feed that was decided since the boot.
    pub decided: Option<u64>,
    /// Whether a disk operation is out.
    pub out: bool,
    /// Whether the operation that is out has landed.
    pub landed: bool,
    /// Whether a Stop is unanswered.
    pub stop_due: bool,
}

impl State {
    ghost use Rattle.std.specs.Prelude.{◌≡◌, ◌<◌, length};
    ghost use Rattle.qn_model.specs.World.{World};
    ghost use Rattle.qn_world.specs.Pending.{pending_of};
    ghost use Rattle.qn_world.specs.Standing.{WorldFor};

    /// What is pending at the node of a rank.
    pub(crate) fn pending_at(&self, i: Rank) -> Pending
        requires within { i.0 < length self.now.seats }
        requires few { i.0 < 32 }
        ensures { (d : World) → WorldFor self.now d → result ≡ pending_of self.now.settings i.0 d }
    {
        let waiting = self.cluster.waiting(i);
        let took = self.took(i);
        Pending {
            running: waiting.running,
            fed: waiting.fed,
            decided: waiting.decided,
            out: waiting.op.is_some(),
            landed: has_landed(waiting.op, took),
            stop_due: waiting.stop_due,
        }
    }
}

/// Whether an operation is out and has landed.
pub(crate) fn has_landed(op: Option<DiskOp>, took: Option<What>) -> bool
    ensures { result ≡ (is_some op && is_some took) }
{
    op.is_some() && took.is_some()
}
