//! Where the nodes of a cluster are: an address on each network and a port for each rank.
ghost use Rattle.std.specs.Net.Socket.{socket_ip, socket_port};
ghost use Rattle.std.specs.declared.net.ip_addr.IpAddr.{IpAddr};
ghost use Rattle.qn_links.specs.declared.sections.Ring.{Ring};
ghost use Rattle.qn_peers.specs.Peers.{HasRanks, IsAt, IsOther, address_on};

use qn_links::{Networks, Ring};
use std::net::{IpAddr, SocketAddr};

/// Where the nodes of a cluster are. The port of a rank is the first port of the cluster plus that rank, on each network.
#[derive(Clone, Copy)]
pub struct Peers {
    /// The address of each rank, where there is such a node.
    pub networks: Networks,
    pub first_port: u16,
    /// The rank of the node itself.
    pub own: u8,
}

/// Where a packet is sent: to an address and a port on the first network, and on the second where there is one.
#[derive(Clone, Copy)]
pub struct Destination {
    pub first: SocketAddr,
    pub second: Option<SocketAddr>,
}

impl Peers {
    ghost use Rattle.std.specs.Prelude.{◌≡◌, ℕ, ◌+◌, ◌<◌, ◌≤◌, Option, None, Some, IfSome, IfNone, slice_index_or};
    ghost use Rattle.qn_links.specs.declared.sections.Ring.TheVariants.{First, Second};

    /// The address of the node of that rank on that network, where there is one.
    fn ip_of(&self, ring: Ring, rank: u16) -> Option<IpAddr>
        ensures its { result ≡ address_on self.now.networks ring rank }
        ensures within { IfSome result (λ _. rank < 32) }
    {
        let links = match ring {
            Ring::First => &self.networks.first,
            Ring::Second => self.networks.second.as_ref()?,
        };
        *links.get(usize::from(rank))?
    }

    /// The address and the port of the node of that rank on that network, where there is one.
    pub fn address_of(&self, ring: Ring, rank: u8) -> Option<SocketAddr>
        ensures its { IfSome result (λ at.
            IsAt self.now ring rank (socket_ip at) (socket_port at)) }
        ensures none { IfNone result ((ip : IpAddr) (port : ℕ) → port < 65536
            → IsAt self.now ring rank ip port → ⊥) }
    {
        let address = self.ip_of(ring, u16::from(rank))?;
        let port = self.first_port.checked_add(u16::from(rank))?;
        Some(SocketAddr::new(address, port))
    }

    /// Where packets for the node of that rank are sent, where there is one.
    pub fn destination_of(&self, rank: u8) -> Option<Destination>
        ensures first { IfSome result (λ to.
            IsAt self.now First rank (socket_ip to.first) (socket_port to.first)) }
        ensures second { IfSome result (λ to. IfSome to.second (λ at.
            IsAt self.now Second rank (socket_ip at) (socket_port at))) }
        ensures no_second { IfSome result (λ to. IfNone to.second ((ip : IpAddr) (port : ℕ)
            → port < 65536 → IsAt self.now Second rank ip port → ⊥)) }
        ensures none { IfNone result ((ip : IpAddr) (port : ℕ) → port < 65536
            → IsAt self.now First rank ip port → ⊥) }
    {
        Some(Destination {
            first: self.address_of(Ring::First, rank)?,
            second: self.address_of(Ring::Second, rank),
        })
    }

    /// The rank of another node whose address and port these are, and on which network.
    pub fn sender_of(&self, from: SocketAddr) -> Option<(u8, Ring)>
        ensures its { IfSome result (λ sender.
            IsOther self.now sender.1 sender.0 (socket_ip from) (socket_port from)) }
        ensures within { IfSome result (λ sender. sender.0 < 32) }
        ensures other { IfSome result (λ sender. sender.0 ≡ self.now.own → ⊥) }
        ensures none { IfNone result ((ring : Ring) (rank : ℕ)
            → IsOther self.now ring rank (socket_ip from) (socket_port from) → ⊥) }
    {
        let rank = from.port().checked_sub(self.first_port)?;
        if rank == u16::from(self.own) {
            return None;
        }
        if self.ip_of(Ring::First, rank) == Some(from.ip()) {
            Some((rank as u8, Ring::First))
        } else if self.ip_of(Ring::Second, rank) == Some(from.ip()) {
            Some((rank as u8, Ring::Second))
        } else {
            None
        }
    }

    /// How many ranks there are up to the last that has an address.
    pub fn count(&self) -> u8
        ensures { HasRanks self.now result }
    {
        let links = &self.networks.first;
        match links.iter().rposition(|address| address.is_some()) {
            Some(last) => last as u8 + 1,
            None => 0,
        }
    }
}
