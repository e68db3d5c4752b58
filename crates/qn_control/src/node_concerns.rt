//! What is risky in the sections of the nodes: names that cannot be shown, and standbys without which nobody may hold.
use crate::concerns::{device_votes, node_votes};
use qn_base::NodeId;
use qn_links::{NameFault, NodeSection, name_of, standing_of};
use qn_model::{NodeEntry, Settings};
use std::alloc::{AllocError, Global};
use std::fmt;

/// What is risky in the section of a node.
#[derive(Clone, Copy)]
pub enum NodeConcern {
    /// The name of this node cannot be shown.
    Name(NodeId, NameFault),
    /// Each node is a standby.
    AllStandby,
    /// The other nodes are no majority without this one, which is a standby.
    NeededStandby(NodeId),
}

impl fmt::Display for NodeConcern {
    fn fmt<W: fmt::Write>(&self, f: &mut fmt::Formatter<W>) -> fmt::Result {
        match self {
            NodeConcern::Name(NodeId(id), fault) => {
                write!(f, "the name of node {id} {fault}: its id is shown")
            }
            NodeConcern::AllStandby => f.write_str("each node is a standby: nobody may hold"),
            NodeConcern::NeededStandby(NodeId(id)) => {
                write!(f, "no majority is without node {id}, which is a standby")
            }
        }
    }
}

/// What is risky in the sections of the nodes of these settings.
pub fn node_concerns_of(
    alloc: Global,
    settings: &Settings,
    sections: &[NodeSection<'_>],
) -> Result<Vec<NodeConcern>, AllocError> {
    let mut concerns = Vec::new(alloc);
    let nodes = settings.nodes.as_slice();
    for node in nodes {
        if let Err(fault) = name_of(sections, node.id) {
            concerns.push(NodeConcern::Name(node.id, fault))?;
        }
        if is_standby(sections, node.id) && is_needed(settings, node) {
            concerns.push(NodeConcern::NeededStandby(node.id))?;
        }
    }
    if nodes.iter().all(|node| is_standby(sections, node.id)) {
        concerns.push(NodeConcern::AllStandby)?;
    }
    Ok(concerns)
}

fn is_standby(sections: &[NodeSection<'_>], id: NodeId) -> bool {
    match standing_of(sections, id) {
        Ok(said) => said.is_standby,
        Err(_) => false,
    }
}

/// Whether all other nodes together have too few votes.
fn is_needed(settings: &Settings, node: &NodeEntry) -> bool {
    let others = node_votes(settings).saturating_sub(u64::from(node.votes));
    others.saturating_add(device_votes(settings)) < settings.quorum(settings.expected)
}
