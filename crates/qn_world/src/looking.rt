//! What a world shows of its nodes.
use crate::state::State;
use qn_base::Rank;
use qn_model::{Answer, Phase, Why};

/// What a world shows of one node. Of a node that is off, running, out, landed, stop_due and holds are
/// false, the phase is Gone, fed is 0, decided is None, the answer is that of the empty history, and why is
/// Down.
#[derive(Clone, Copy, PartialEq, Eq)]
pub struct NodeSeen {
    pub running: bool,
    pub phase: Phase,
    /// The true time of the last feed that took effect, or of the boot, in milliseconds.
    pub fed: u64,
    /// The true time of the last feed that was decided since the boot.
    pub decided: Option<u64>,
    /// Whether a disk operation is out.
    pub out: bool,
    /// Whether the operation that is out has landed.
    pub landed: bool,
    /// Whether a Stop is unanswered.
    pub stop_due: bool,
    /// How many of its writes are left over.
    pub leftovers: u64,
    /// The count of votes at the node's present tick.
    pub answer: Answer,
    /// The first condition that blocks a start at the node's present tick.
    pub why: Why,
    pub holds: bool,
}

impl State {
    ghost use Rattle.std.specs.Prelude.{◌≡◌, ◌<◌, length};
    ghost use Rattle.qn_model.specs.World.{World};
    ghost use Rattle.qn_world.specs.Seen.{seen_of};
    ghost use Rattle.qn_world.specs.Standing.{WorldFor};

    /// What is shown of the node of a rank.
    pub(crate) fn seen_at(&self, i: Rank) -> NodeSeen
        requires within { i.0 < length self.now.seats }
        requires few { i.0 < 32 }
        ensures { (d : World) → WorldFor self.now d → result ≡ seen_of self.now.settings i.0 d }
    {
        let pending = self.pending_at(i);
        let count = self.cluster.answer(i);
        NodeSeen {
            running: pending.running,
            phase: self.cluster.phase(i),
            fed: pending.fed,
            decided: pending.decided,
            out: pending.out,
            landed: pending.landed,
            stop_due: pending.stop_due,
            leftovers: self.left_of(i),
            answer: count,
            why: self.cluster.why(i, count),
            holds: self.cluster.holds(i),
        }
    }
}
