//! What the status says of one node.
use qn_base::NodeId;
use qn_model::{Answer, Phase, Why};

/// What the status says of one node, at its present tick. Of a node that is off the phase is Gone, the
/// answer that of the empty history, and the condition Down.
#[derive(Clone, Copy, PartialEq, Eq)]
pub struct NodeState {
    pub id: NodeId,
    pub phase: Phase,
    pub holds: bool,
    pub answer: Answer,
    pub why: Why,
}

impl Default for NodeState {
    ghost use Rattle.std.specs.Prelude.{◌≡◌, false};

    /// A node that is off, without an id and without votes.
    fn default() -> Self
        ensures id { result.id.0 ≡ 0 }
        ensures phase { result.phase ≡ Phase.Gone }
        ensures holds { result.holds ≡ false }
        ensures answer { result.answer
            ≡ record { quorate = false; votes = 0; quorum = 0; expected = 0; released = false } }
        ensures why { result.why ≡ Why.Down }
    {
        NodeState {
            id: NodeId(0),
            phase: Phase::Gone,
            holds: false,
            answer: Answer {
                quorate: false,
                votes: 0,
                quorum: 0,
                expected: 0,
                released: false,
            },
            why: Why::Down,
        }
    }
}
