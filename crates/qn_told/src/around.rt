//! What surrounds a call of a node.
use crate::node_names::NodeNames;
use qn_base::Rank;
use qn_event::Moment;
use qn_model::Nodes;

/// What surrounds a call of a node: when it is told, of which nodes, and what is known of them then beside what the node was handed.
#[derive(Clone, Copy)]
pub struct Around<'a> {
    pub at: Moment,
    /// The tick of the node.
    pub tick: u64,
    pub nodes: &'a Nodes,
    pub names: NodeNames<'a>,
    pub me: Rank,
    /// The loop in milliseconds; 0 before the header of the image is read.
    pub loop_ms: u64,
    /// The timeout of the quorum device in milliseconds; 0 where there is none.
    pub timeout: u64,
    /// The number of the view of the node, without whom it names; 0 where it has none.
    pub view: u64,
    /// The number of the network that is lost to the node whose Hello came since the last turn, where one is.
    pub lost: Option<u64>,
    /// The place of the image that was opened late since the call before.
    pub opened: Option<u8>,
}
