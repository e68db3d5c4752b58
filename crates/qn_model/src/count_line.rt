//! What a good line of the input of `count` says.
use crate::nodelist::NodeEntry;
use qn_base::View;

/// What a good line of the input of `count` says.
#[derive(Clone, Copy, PartialEq, Eq)]
pub enum CountLine {
    /// `node ID VOTES`: one more node.
    Node(NodeEntry),
    /// `view VID MEMBERS`: a view of the nodes so far. The rank of a node is its place among them.
    View(View),
}
