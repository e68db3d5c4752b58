//! Where the arbiter of a cluster is.
ghost use Rattle.std.specs.Prelude.{◌≡◌, ◌↔◌, IfOk, IfErr, IsTrue};
ghost use Rattle.qn_links.specs.Arbiters.{HasHost, HasNoPlace, HasPort, IsOfFamily, port_in};

use crate::device::DeviceNet;
use crate::links::{Links, address_of_machine};
use qn_base::read_decimal;
use std::fmt;
use std::fmt::Display;
use std::net::IpAddr;
use std::str::from_utf8;

/// Where the arbiter is, by the settings text.
#[derive(Clone, Copy)]
pub struct ArbiterPlace {
    pub address: IpAddr,
    /// Its port, where one is written.
    pub port: Option<u16>,
}

/// Why a settings text does not say where the arbiter is: the first reason, in this order.
#[derive(Clone, Copy)]
pub enum ArbiterFault<'text> {
    /// No `host` is written.
    NoHost,
    /// What is written as `host` is no address of one machine.
    NotAddress { text: &'text [u8] },
    /// The address is of another family than those of the nodes.
    OtherFamily { text: &'text [u8] },
    /// What is written as `port` is no port.
    NotPort { text: &'text [u8] },
}

impl<'text> Display for ArbiterFault<'text> {
    fn fmt<W: fmt::Write>(&self, f: &mut fmt::Formatter<W>) -> fmt::Result {
        match self {
            ArbiterFault::NoHost => f.write_str("device: no host"),
            ArbiterFault::NotAddress { text } => {
                let text = from_utf8(text).unwrap_or("");
                write!(f, "device: {text} is no address")
            }
            ArbiterFault::OtherFamily { text } => {
                let text = from_utf8(text).unwrap_or("");
                write!(f, "device: {text} is of another family than the nodes")
            }
            ArbiterFault::NotPort { text } => {
                let text = from_utf8(text).unwrap_or("");
                write!(f, "device: {text} is no port")
            }
        }
    }
}

/// Where the arbiter of nodes at these places is, or the first fault.
pub fn arbiter_of<'text>(
    net: DeviceNet<'text>,
    links: &Links,
) -> Result<ArbiterPlace, ArbiterFault<'text>>
    ensures host { IfOk result (λ place. HasHost net.entry place.address) }
    ensures family { IfOk result (λ place. IsOfFamily links.now place.address) }
    ensures port { IfOk result (λ place. HasPort net.entry place.port) }
    ensures fault { IfErr result (λ fault. HasNoPlace net.entry links.now fault) }
{
    let Some(text) = net.host else {
        return Err(ArbiterFault::NoHost);
    };
    let Some(address) = address_of_machine(text) else {
        return Err(ArbiterFault::NotAddress { text });
    };
    if !is_of_family(links, &address) {
        return Err(ArbiterFault::OtherFamily { text });
    }
    let Some(text) = net.port else {
        return Ok(ArbiterPlace {
            address,
            port: None,
        });
    };
    match port_in(text) {
        Some(port) => Ok(ArbiterPlace {
            address,
            port: Some(port),
        }),
        None => Err(ArbiterFault::NotPort { text }),
    }
}

/// Whether an address is of the family of the nodes.
fn is_of_family(links: &Links, address: &IpAddr) -> bool
    ensures { IsTrue result ↔ IsOfFamily links.now address.now }
{
    match links[0] {
        Some(first) => address.is_ipv4() == first.is_ipv4(),
        None => true,
    }
}

/// The port that is written so.
#[tactic(auto, unfolding(crate::specs::Arbiters::port_in))]
fn port_in(text: &[u8]) -> Option<u16>
    ensures { result ≡ port_in text.now }
{
    let number = read_decimal(text)?;
    if number >= 1 && number <= 65535 {
        Some(number as u16)
    } else {
        None
    }
}
