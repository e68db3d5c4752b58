//! The address of each rank.
ghost use Rattle.std.specs.Prelude.{◌≡◌, ◌↔◌, ◌<◌, ◌≤◌, IsTrue, None, IfOk, IfErr, IfSome, IfNone, OnOk, length, option_map};
ghost use Rattle.std.specs.declared.net.ip_addr.IpAddr.{IpAddr};
ghost use Rattle.qn_links.specs.Links.{AreLinks, HasAddress, IsApartFrom, IsOfMachine, Writes, text_of};
ghost use Rattle.qn_links.specs.Faults.{Clashes, IsFirstFault, IsUnwritten};

use crate::fault::LinksFault;
use crate::sections::{NodeSection, Ring};
use qn_base::NodeId;
use qn_model::NodeEntry;
use std::net::IpAddr;

/// The most nodes of a cluster.
pub(crate) const MOST_NODES: usize = 32;

/// The address of each rank; None from the number of nodes on.
pub type Links = [Option<IpAddr>; MOST_NODES];

/// The address of each of these nodes on that network, which stand in ascending id, at the place of its rank; or the first fault.
pub fn links_of<'text>(
    ring: Ring,
    sections: &[NodeSection<'text>],
    nodes: &[NodeEntry],
) -> Result<Links, LinksFault<'text>>
    requires { length nodes.now ≤ 32 }
    ensures links { IfOk result (λ links.
        AreLinks ring sections.now nodes.now links (length nodes.now)) }
    ensures fault { IfErr result (λ fault. IsFirstFault ring sections.now nodes.now fault) }
{
    let mut links = [None; MOST_NODES];
    for rank in 0..nodes.len() {
        let address = address_of(ring, sections, nodes[rank].id)?;
        apart(address, rank, &links, nodes)?;
        links[rank] = Some(address);
    }
    Ok(links)
}

/// The address on that network that the first section of that node writes.
fn address_of<'text>(
    ring: Ring,
    sections: &[NodeSection<'text>],
    id: NodeId,
) -> Result<IpAddr, LinksFault<'text>>
    ensures has { IfOk result (λ address. HasAddress ring sections.now id address) }
    ensures fault { IfErr result (λ fault. IsUnwritten ring sections.now id fault) }
{
    let Some(text) = text_of(ring, sections, id) else {
        return Err(LinksFault::NoAddress { id });
    };
    match address_of_machine(text) {
        Some(address) => Ok(address),
        None => Err(LinksFault::NotAddress { id, text }),
    }
}

/// What the first section of that node writes as its address on that network.
fn text_of<'text>(ring: Ring, sections: &[NodeSection<'text>], id: NodeId) -> Option<&'text [u8]>
    ensures { option_map (λ written. written.now) result ≡ text_of ring sections.now id }
{
    for section in sections {
        if section.id.0 == id.0 {
            return section.address_on(ring);
        }
    }
    None
}

/// The address of one machine that is written so.
pub(crate) fn address_of_machine(text: &[u8]) -> Option<IpAddr>
    ensures some { IfSome result (λ address. Writes text.now address) }
    ensures none { IfNone result ((address : IpAddr) → Writes text.now address → ⊥) }
{
    let address = IpAddr::parse_ascii(text).ok()?;
    if is_of_machine(&address) {
        Some(address)
    } else {
        None
    }
}

/// Whether an address is one of one machine: neither the unspecified one nor one of many.
fn is_of_machine(address: &IpAddr) -> bool
    ensures { IsTrue result ↔ IsOfMachine address.now }
{
    !address.is_unspecified() && !address.is_multicast()
}

/// Fails where the address of this rank is that of a rank below it, or of the other family.
fn apart<'text>(
    address: IpAddr,
    rank: usize,
    links: &Links,
    nodes: &[NodeEntry],
) -> Result<(), LinksFault<'text>>
    requires within { rank < length nodes.now }
    requires fits { rank < 32 }
    ensures apart { OnOk result (IsApartFrom links.now rank address) }
    ensures fault { IfErr result (λ fault. Clashes nodes.now links.now rank address fault) }
{
    let second = nodes[rank].id;
    for below in 0..rank {
        let Some(other) = links[below] else {
            continue;
        };
        let first = nodes[below].id;
        if other == address {
            return Err(LinksFault::SameAddress { first, second });
        }
        if other.is_ipv4() != address.is_ipv4() {
            return Err(LinksFault::TwoFamilies { first, second });
        }
    }
    Ok(())
}
