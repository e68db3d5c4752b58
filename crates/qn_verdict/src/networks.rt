//! Which of two networks is down, and where, by the words of live nodes. A peer that is not heard counts for nothing here.
ghost use Rattle.std.specs.Prelude.{◌≡◌, ◌&&◌, ◌==◌};
ghost use Rattle.std.specs.List.{list_any};
ghost use Rattle.qn_verdict.specs.Networks.{has_link, has_link_of, is_cut_off, is_down_between, is_down_to, is_end, is_link, is_network_down, says_down};
ghost use Rattle.qn_verdict.specs.Voices.{is_live};

use crate::voice::{is_heard, is_live};
use qn_base::NodeId;
use qn_shown::{Peer, Shown};

/// Whether that peer is heard, and this network to it is down.
fn is_down_to(now: u64, file: &Shown, network: u64, peer: &Peer) -> bool
    ensures { result ≡ is_down_to now file.now network peer.now }
{
    is_heard(now, file, peer)
        && match peer.network_down {
            Some(down) => down == network,
            None => false,
        }
}

/// Whether a node says that this network to the node of that id is down.
fn says_down_to(now: u64, file: &Shown, network: u64, id: NodeId) -> bool
    ensures { result ≡ list_any
        (λ peer. (peer.id.0 == id.0) && is_down_to now file.now network peer) file.now.peers.items }
{
    file.peers.as_slice().iter().any(|peer| peer.id.0 == id.0
        && is_down_to(now, file, network, peer))
}

/// Whether the live node of the first id says so of the node of the second one.
fn says_down(now: u64, files: &[Shown], network: u64, id: NodeId, other: NodeId) -> bool
    ensures { result ≡ says_down now files.now network id other }
{
    files.iter().any(|file| {
        is_live(now, file) && file.id.0 == id.0 && says_down_to(now, file, network, other)
    })
}

/// Whether this network between two nodes is down, by the word of one of them.
pub fn is_down_between(now: u64, files: &[Shown], network: u64, id: NodeId, other: NodeId) -> bool
    ensures { result ≡ is_down_between now files.now network id other }
{
    says_down(now, files, network, id, other) || says_down(now, files, network, other, id)
}

/// Whether a node hears that peer, and this network between both is down, or is not.
fn is_link(
    now: u64,
    files: &[Shown],
    network: u64,
    is_down: bool,
    file: &Shown,
    peer: &Peer,
) -> bool
    ensures { result ≡ is_link now files.now network is_down file.now peer.now }
{
    is_heard(now, file, peer) && is_down_between(now, files, network, file.id, peer.id) == is_down
}

/// Whether a node is an end of that link.
fn is_end(id: NodeId, file: &Shown, peer: &Peer) -> bool
    ensures { result ≡ is_end id file.now peer.now }
{
    file.id.0 == id.0 || peer.id.0 == id.0
}

/// Whether a node has such a link.
fn has_link_in(now: u64, files: &[Shown], network: u64, is_down: bool, file: &Shown) -> bool
    ensures { result ≡ list_any (is_link now files.now network is_down file.now) file.now.peers.items }
{
    file.peers
        .as_slice()
        .iter()
        .any(|peer| is_link(now, files, network, is_down, file, peer))
}

/// Whether a live node has such a link.
fn has_link(now: u64, files: &[Shown], network: u64, is_down: bool) -> bool
    ensures { result ≡ has_link now files.now network is_down }
{
    files.iter().any(|file| is_live(now, file) && has_link_in(now, files, network, is_down, file))
}

/// Whether a node has such a link, of which the node of that id is an end.
fn has_link_of_in(
    now: u64,
    files: &[Shown],
    network: u64,
    is_down: bool,
    id: NodeId,
    file: &Shown,
) -> bool
    ensures { result ≡ list_any (λ peer. is_end id file.now peer
        && is_link now files.now network is_down file.now peer) file.now.peers.items }
{
    file.peers.as_slice().iter().any(|peer| is_end(id, file, peer)
        && is_link(now, files, network, is_down, file, peer))
}

/// Whether a live node has such a link, of which the node of that id is an end.
fn has_link_of(now: u64, files: &[Shown], network: u64, is_down: bool, id: NodeId) -> bool
    ensures { result ≡ has_link_of now files.now network is_down id }
{
    files.iter().any(|file| is_live(now, file)
        && has_link_of_in(now, files, network, is_down, id, file))
}

/// Whether this network to a node is down: on one of its links, and on each.
pub fn is_cut_off(now: u64, files: &[Shown], network: u64, id: NodeId) -> bool
    ensures { result ≡ is_cut_off now files.now network id }
{
    has_link_of(now, files, network, true, id) && !has_link_of(now, files, network, false, id)
}

/// Whether a network is down: on a link, and on each.
pub fn is_network_down(now: u64, files: &[Shown], network: u64) -> bool
    ensures { result ≡ is_network_down now files.now network }
{
    has_link(now, files, network, true) && !has_link(now, files, network, false)
}
