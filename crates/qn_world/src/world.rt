//! The world of one image.
use crate::looking::NodeSeen;
use crate::pending::Pending;
use crate::state::State;
use qn_base::Rank;
use qn_cluster::Shows;

/// A cluster in true time, with its nodes, the image that they share, and the packets that were sent. It
/// changes by events, each of which one of ten rules may refuse.
pub type World = qn_cluster::World<State>;

impl Shows for State {
    ghost use Rattle.qn_world.specs.Showing.{IsPending, IsSeen};

    type Seen = NodeSeen;

    type Pending = Pending;

    ghost is_seen = { IsSeen };

    ghost is_pending = { IsPending };

    fn seen(&self, i: Rank) -> NodeSeen {
        self.seen_at(i)
    }

    fn pending(&self, i: Rank) -> Pending {
        self.pending_at(i)
    }
}
