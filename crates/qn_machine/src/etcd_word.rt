//! The word of an image in an etcd cluster: `etcd:HOST:PORT/PREFIX`.

use crate::edge::Edge;
use crate::image_word::LONG;
use qn_etcd::MOST_PREFIX;
use qn_peers::Guard;
use std::io::{self, ErrorKind};
use std::net::SocketAddr;

/// What stands before the place of a cluster.
pub(crate) const CLUSTER: &str = "etcd:";

/// Where an image in an etcd cluster is.
#[derive(Clone, Copy)]
pub(crate) struct EtcdAt<'w> {
    /// The address of a member.
    pub(crate) address: SocketAddr,
    /// The same, as it stands in the word.
    pub(crate) host: &'w str,
    /// What each key of the image begins with.
    pub(crate) prefix: &'w str,
}

impl<'w> EtcdAt<'w> {
    /// Reads what stands after `etcd:`. HOST is a literal address, one of IPv6 in brackets; PREFIX has 1 to 96 letters, digits and signs of
    /// ASCII, and does not end in `/` or `@4096`, since a key has no place.
    pub(crate) fn read(rest: &'w str) -> io::Result<EtcdAt<'w>> {
        let Some((host, prefix)) = rest.split_once('/') else {
            return Err(no_cluster());
        };
        match host.parse::<SocketAddr>() {
            Ok(address) if is_prefix(prefix) => Ok(EtcdAt {
                address,
                host,
                prefix,
            }),
            _ => Err(no_cluster()),
        }
    }
}

fn no_cluster() -> io::Error {
    io::Error::new(
        ErrorKind::InvalidInput,
        "no etcd:HOST:PORT/PREFIX with a literal address and a prefix of 1 to 96 signs",
    )
}

fn is_prefix(prefix: &str) -> bool {
    let bytes = prefix.as_bytes();
    let is_of_size = !bytes.is_empty() && bytes.len() <= MOST_PREFIX;
    let ends_well = !prefix.ends_with('/') && !prefix.ends_with(LONG);
    is_of_size && ends_well && bytes.iter().all(|byte| byte.is_ascii_graphic())
}

/// Refuses an image in a cluster that is asked over a network, but where the network is said to be closed to others: nothing guards what is
/// asked there.
pub(crate) fn check_reach(edge: &Edge, word: &str) -> io::Result<()> {
    let is_closed_to_others = matches!(edge.guard, Guard::ClosedNetwork);
    if is_closed_to_others || word.split(',').all(is_near) {
        Ok(())
    } else {
        Err(io::Error::new(
            ErrorKind::InvalidInput,
            "a cluster is asked on an address of this host alone, or with --open",
        ))
    }
}

/// Whether the word of an image is none of a cluster on another host.
fn is_near(word: &str) -> bool {
    let Some(rest) = word.strip_prefix(CLUSTER) else {
        return true;
    };
    match EtcdAt::read(rest) {
        Ok(at) => at.address.ip().is_loopback(),
        Err(_) => true,
    }
}
