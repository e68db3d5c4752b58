//! What an operator sees of a running node.
use qn_base::{Rank, View};
use qn_model::{Answer, Phase, Settings, Why};
use qn_node::Node;

/// Where a running node stands after its last entry. The votes and the condition are those at the tick of that entry. A
/// node that has ended keeps those of its last entry.
#[derive(Clone, Copy)]
pub struct Standing {
    pub phase: Phase,
    /// Whether the node holds the resource: from the entry that starts it on, before its start was answered.
    pub holds: bool,
    pub answer: Answer,
    /// The first condition that blocks a start.
    pub why: Why,
    /// The incarnation that the node claimed.
    pub incarnation: Option<u64>,
    /// The install number of the present view, from 1, and that view.
    pub view: Option<(u64, View)>,
}

impl Standing {
    ghost use Rattle.std.specs.Prelude.{◌≡◌, ◌<◌, ℕ, List, [], length};
    ghost use Rattle.qn_model.specs.declared.configuration.Settings.{Settings};
    ghost use Rattle.qn_model.specs.Log.{Line, now};
    ghost use Rattle.qn_node.specs.Node.{NodeFor};
    ghost use Rattle.qn_live.specs.Standings.{standing};

    /// Where the node of that rank stands before its first entry.
    pub fn first(settings: &Settings, me: Rank) -> Standing
        requires { me.0 < length settings.now.nodes }
        ensures { result ≡ standing settings.now me.0 [] }
    {
        Standing::of(&Node::new(settings, me), 0)
    }

    /// Where a node stands at the tick of its last entry.
    pub fn of(node: &Node, tick: u64) -> Standing
        ensures { (s : Settings) (me : ℕ) (log : List Line)
            → NodeFor node.now s me log
            → tick ≡ now log
            → result ≡ standing s me log }
    {
        let answer = node.answer(tick);
        Standing {
            phase: node.phase(),
            holds: node.holds(),
            answer,
            why: node.why_with(tick, answer),
            incarnation: node.incarnation(),
            view: node.present(),
        }
    }
}
