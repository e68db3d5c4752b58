//! What a world shows of a node with what the disk has of it.
use crate::steps::Steps;
use qn_base::Rank;

/// What is kept of a world that shows its nodes with what the disk has of them.
///
/// `is_seen` says what is shown of the node of a rank, and `is_pending` what is pending at it.
pub trait Shows: Steps {
    ghost use Rattle.std.specs.Prelude.{◌<◌, ℕ, length};
    ghost use Rattle.qn_cluster.specs.WorldSteps.{IsStanding};

    /// What is shown of a node.
    type Seen;

    /// What is pending at a node.
    type Pending;

    ghost is_seen: { Self → ℕ → Self.Seen → Type 0 };

    ghost is_pending: { Self → ℕ → Self.Pending → Type 0 };

    /// What is shown of the node of a rank.
    fn seen(&self, i: Rank) -> Self::Seen
        requires standing { IsStanding Self.kind self.now }
        requires configured { i.0 < length (Self.kind.nodes self.now).settings.nodes }
        ensures { Self.is_seen self.now i.0 result };

    /// What is pending at the node of a rank: what `seen` shows of it that needs no count of votes.
    fn pending(&self, i: Rank) -> Self::Pending
        requires standing { IsStanding Self.kind self.now }
        requires configured { i.0 < length (Self.kind.nodes self.now).settings.nodes }
        ensures { Self.is_pending self.now i.0 result };
}
