//! What a settings text says of its quorum device that is legal and risky, or that has no effect here.
use crate::pairs::{Pair, Place, Section, sections_of};
use qn_conf::Tree;
use qn_model::Settings;
use std::alloc::{AllocError, Global};
use std::fmt;
use std::net::IpAddr;

/// What is risky in what a text says of its device, or has no effect.
#[derive(Clone, Copy, Drop)]
pub enum DeviceConcern<'text> {
    /// No `host`: no node will ask for its vote, so it never has one.
    NoHost,
    /// The `host` is a name: a node asks nobody.
    HostName { host: &'text str },
    /// The `host` is the `ring0_addr` of a node: the arbiter ends with that node.
    HostOfNode { host: &'text str },
    /// A key or a section of the device that has no effect.
    NoEffect { key: &'text str },
}

impl fmt::Display for DeviceConcern<'_> {
    fn fmt<W: fmt::Write>(&self, f: &mut fmt::Formatter<W>) -> fmt::Result {
        match self {
            DeviceConcern::NoHost => f.write_str("the device has no host: nobody will ever vote"),
            DeviceConcern::HostName { host } => {
                write!(
                    f,
                    "the device's host {host:?} is no address: nobody will ever vote"
                )
            }
            DeviceConcern::HostOfNode { host } => {
                write!(
                    f,
                    "the device's host {host:?} is a node's address: the vote is lost with that node"
                )
            }
            DeviceConcern::NoEffect { key } => {
                write!(f, "the device's {key:?} has no effect here")
            }
        }
    }
}

/// Keys and sections of a device, and of its `net`, that corosync-qdevice(8) has and that have no effect here.
const WITHOUT_EFFECT: &[&str] = &[
    "sync_timeout",
    "algorithm",
    "tie_breaker",
    "tls",
    "heuristics",
];

/// What is risky or without effect in what a text says of its device, by the settings, the tree and the pairs of the text.
pub fn device_concerns_of<'text>(
    alloc: Global,
    settings: &Settings,
    tree: &Tree<'text>,
    pairs: &[Pair<'text>],
) -> Result<Vec<DeviceConcern<'text>>, AllocError> {
    let mut found = Vec::new(alloc);
    if settings.device.is_none() {
        return Ok(found);
    }
    if let Some(concern) = of_host(pairs) {
        found.push(concern)?;
    }
    for pair in pairs {
        if is_of_device(pair.place) && is_without_effect(pair.key) {
            found.push(DeviceConcern::NoEffect { key: pair.key })?;
        }
    }
    for section in sections_of(alloc, tree)?.as_slice() {
        if is_section_without_effect(section) {
            found.push(DeviceConcern::NoEffect { key: section.name })?;
        }
    }
    Ok(found)
}

/// The host of the device, as it is written last.
pub(crate) fn host_of<'text>(pairs: &[Pair<'text>]) -> Option<&'text str> {
    value_in_net(pairs, "host")
}

/// The port of the device, as it is written last.
pub(crate) fn port_of<'text>(pairs: &[Pair<'text>]) -> Option<&'text str> {
    value_in_net(pairs, "port")
}

fn value_in_net<'text>(pairs: &[Pair<'text>], key: &str) -> Option<&'text str> {
    pairs
        .iter()
        .filter(|pair| pair.place == Place::Net && pair.key == key)
        .last()
        .map(|pair| pair.value)
}

/// What is risky in the host.
fn of_host<'text>(pairs: &[Pair<'text>]) -> Option<DeviceConcern<'text>> {
    let Some(host) = host_of(pairs) else {
        return Some(DeviceConcern::NoHost);
    };
    let Ok(address) = IpAddr::parse_ascii(host.as_bytes()) else {
        return Some(DeviceConcern::HostName { host });
    };
    let is_of_node = pairs.iter().any(|pair| is_address_of_node(pair, address));
    is_of_node.then_some(DeviceConcern::HostOfNode { host })
}

/// Whether a pair says that a node is at that address.
fn is_address_of_node(pair: &Pair<'_>, address: IpAddr) -> bool {
    let is_address = matches!(pair.place, Place::Node(_)) && pair.key == "ring0_addr";
    is_address && IpAddr::parse_ascii(pair.value.as_bytes()) == Ok(address)
}

fn is_of_device(place: Place) -> bool {
    place == Place::Device || place == Place::Net
}

fn is_without_effect(key: &str) -> bool {
    WITHOUT_EFFECT.iter().any(|known| *known == key)
}

fn is_section_without_effect(section: &Section<'_>) -> bool {
    section.outer.is_some_and(is_of_device) && is_without_effect(section.name)
}
