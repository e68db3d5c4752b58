//! The one network or the two that a settings text names.
ghost use Rattle.std.specs.Prelude.{◌≡◌, ◌↔◌, ◌≤◌, IsTrue, Some, None, IfOk, IfErr, IfSome, IfNone, length, slice_index_or};
ghost use Rattle.std.specs.declared.net.ip_addr.IpAddr.{IpAddr};
ghost use Rattle.qn_links.specs.Networks.{AreDisjoint, AreNetworks, HasNoSecond, IsAbsent, IsAtFirst, IsNetworksFault};
ghost use Rattle.qn_links.specs.Links.{id_at};

use crate::fault::LinksFault;
use crate::links::{Links, MOST_NODES, links_of};
use crate::sections::{NodeSection, Ring};
use qn_base::NodeId;
use qn_model::NodeEntry;
use std::fmt;
use std::fmt::Display;
use std::net::IpAddr;

/// Where the nodes are on each network.
#[derive(Clone, Copy)]
pub struct Networks {
    pub first: Links,
    /// None where the text has one network.
    pub second: Option<Links>,
}

/// Why a settings text does not say where the nodes are: the first reason, in this order.
#[derive(Clone, Copy)]
pub enum NetworksFault<'text> {
    First(LinksFault<'text>),
    Second(LinksFault<'text>),
    /// The `ring1_addr` of a node is the `ring0_addr` of a node, which may be the same one.
    Shared { id: NodeId, of: NodeId },
}

impl<'text> Display for NetworksFault<'text> {
    fn fmt<W: fmt::Write>(&self, f: &mut fmt::Formatter<W>) -> fmt::Result {
        match self {
            NetworksFault::First(fault) => write!(f, "{fault}"),
            NetworksFault::Second(LinksFault::NoAddress { id }) => {
                write!(f, "ring1_addr: node {} has none", id.0)
            }
            NetworksFault::Second(fault) => write!(f, "ring1_addr: {fault}"),
            NetworksFault::Shared { id, of } => {
                write!(
                    f,
                    "ring1_addr: that of node {} is the ring0_addr of node {}",
                    id.0, of.0
                )
            }
        }
    }
}

/// The addresses of each of these nodes, which stand in ascending id, on each network; or the first fault. There is a second network where
/// a node section has a `ring1_addr`.
pub fn networks_of<'text>(
    sections: &[NodeSection<'text>],
    nodes: &[NodeEntry],
) -> Result<Networks, NetworksFault<'text>>
    requires { length nodes.now ≤ 32 }
    ensures networks { IfOk result (λ networks. AreNetworks sections.now nodes.now networks) }
    ensures fault { IfErr result (λ fault. IsNetworksFault sections.now nodes.now fault) }
{
    let first = links_of(Ring::First, sections, nodes).map_err(NetworksFault::First)?;
    if has_no_second(sections) {
        return Ok(Networks {
            first,
            second: None,
        });
    }
    let second = links_of(Ring::Second, sections, nodes).map_err(NetworksFault::Second)?;
    if let Some((rank, of)) = shared(&first, &second) {
        return Err(NetworksFault::Shared {
            id: id_of(nodes, rank),
            of: id_of(nodes, of),
        });
    }
    Ok(Networks {
        first,
        second: Some(second),
    })
}

/// Whether no section has a `ring1_addr`.
fn has_no_second(sections: &[NodeSection<'_>]) -> bool
    ensures { IsTrue result ↔ HasNoSecond sections.now }
{
    sections.iter().all(|section| section.second.is_none())
}

/// The first rank whose address on the second network is one of the first network, and the first rank that has it there.
fn shared(first: &Links, second: &Links) -> Option<(usize, usize)>
    ensures found { IfSome result (λ ranks. (address : IpAddr)
        × (slice_index_or second.now ranks.0 None ≡ Some address)
        × IsAtFirst first.now address ranks.1) }
    ensures none { IfNone result (AreDisjoint first.now second.now 32) }
{
    for rank in 0..MOST_NODES {
        let Some(address) = second[rank] else {
            continue;
        };
        if let Some(of) = rank_of(first, address) {
            return Some((rank, of));
        }
    }
    None
}

/// The first rank that has this address.
fn rank_of(links: &Links, address: IpAddr) -> Option<usize>
    ensures its { IfSome result (λ rank. IsAtFirst links.now address rank) }
    ensures none { IfNone result (IsAbsent links.now 32 address) }
{
    for rank in 0..MOST_NODES {
        let Some(other) = links[rank] else {
            continue;
        };
        if other == address {
            return Some(rank);
        }
    }
    None
}

/// The id of the node of that rank; 0 where there is no such node.
fn id_of(nodes: &[NodeEntry], rank: usize) -> NodeId
    ensures { result ≡ id_at nodes.now rank }
{
    match nodes.get(rank) {
        Some(node) => node.id,
        None => NodeId(0),
    }
}
