//! Why a settings text does not say where the nodes are.
use qn_base::NodeId;
use std::fmt;
use std::fmt::Display;
use std::str::from_utf8;

/// The first reason, in the order of the ids.
#[derive(Clone, Copy)]
pub enum LinksFault<'text> {
    /// No section is that of the node, or the first one that is has no `ring0_addr`.
    NoAddress { id: NodeId },
    /// The `ring0_addr` of the node is no address of one machine.
    NotAddress { id: NodeId, text: &'text [u8] },
    /// Two nodes have one address.
    SameAddress { first: NodeId, second: NodeId },
    /// The address of one node is of IPv4, and that of the other of IPv6.
    TwoFamilies { first: NodeId, second: NodeId },
}

impl<'text> Display for LinksFault<'text> {
    fn fmt<W: fmt::Write>(&self, f: &mut fmt::Formatter<W>) -> fmt::Result {
        match self {
            LinksFault::NoAddress { id } => write!(f, "node {} has no ring0_addr", id.0),
            LinksFault::NotAddress { id, text } => {
                let text = from_utf8(text).unwrap_or("");
                write!(f, "node {}: {text} is no address", id.0)
            }
            LinksFault::SameAddress { first, second } => {
                write!(f, "nodes {} and {} have one address", first.0, second.0)
            }
            LinksFault::TwoFamilies { first, second } => {
                write!(
                    f,
                    "nodes {} and {} have addresses of two families",
                    first.0, second.0
                )
            }
        }
    }
}
