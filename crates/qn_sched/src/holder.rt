//! Who holds the resource, where that is one node at most.
ghost use Rattle.std.specs.Prelude.{◌≡◌, ◌<◌, ◌≤◌, ◌+◌, ◌++◌, IfSome, length};
ghost use Rattle.qn_model.specs.Settings.{ids};
ghost use Rattle.qn_sched.specs.TraceLines.{holder_text, holders_text};

use arrayvec::ArrayVec;
use qn_base::{Mask, NodeId, Rank, add, add_number};
use qn_model::Nodes;

/// Who holds the resource, where that is one node at most.
#[derive(Clone, Copy, PartialEq, Eq)]
pub(crate) enum Holder {
    Nobody,
    Node(NodeId),
}

/// The node that holds the resource, or that none does; `None` where several do.
pub(crate) fn holder_of(nodes: &Nodes, holders: Mask) -> Option<Holder>
    ensures { IfSome result
        (λ holder. holders_text (ids nodes.now) holders ≡ holder_text holder) }
{
    match holders.first(nodes.len() as u8) {
        None => Some(Holder::Nobody),
        Some(rank) => node_alone(nodes, holders, rank),
    }
}

/// The node of a rank, where it alone holds.
fn node_alone(nodes: &Nodes, holders: Mask, rank: Rank) -> Option<Holder>
    requires within { rank.0 < length nodes.now }
    requires few { length nodes.now ≤ 32 }
    ensures { IfSome result
        (λ holder. holders_text (ids nodes.now) holders ≡ holder_text holder) }
{
    let alone = Mask(0).with(rank);
    if holders.0 == alone.0 {
        Some(Holder::Node(nodes.id_of(rank)))
    } else {
        None
    }
}

/// Adds the id of the node that holds the resource, or a dash.
pub(crate) fn add_holder<const N: usize>(into: &mut ArrayVec<u8, N>, holder: Holder)
    requires { length into.old.items + 20 ≤ N }
    ensures text { into.new.items ≡ into.old.items ++ holder_text holder }
    ensures len { length into.new.items ≤ length into.old.items + 20 }
{
    match holder {
        Holder::Nobody => add(into, b"-"),
        Holder::Node(id) => add_number(into, u64::from(id.0)),
    }
}
