//! Which of the datagrams that come are handed to the node.
ghost use Rattle.std.specs.Prelude.{◌≡◌};
ghost use Rattle.std.specs.Net.Socket.{socket_ip, socket_port};
ghost use Rattle.qn_peers.specs.Admission.{IsHanded, IsOf, IsOpened, IsOwn, IsRefused, IsVoteHere, front_of, is_double, is_of_host, is_reply, is_request, is_strange, is_vote, is_word, names_other, receiver_after_taking, seat_of};
ghost use Rattle.qn_peers.specs.Guards.{ReceivesBy, keys_of, takes_votes};

use crate::admitted::Admitted;
use crate::guard::Guarding;
use crate::peers::Peers;
use qn_links::Ring;
use qn_seal::{Receiver, Refused};
use std::net::{IpAddr, Ipv4Addr, SocketAddr};

/// The seat of the arbiter, one above those of the ranks.
pub const ARBITER: u8 = 32;

/// The kind of a packet of the quorum device of the node's own host.
const VOTE: u8 = 5;

/// The kind of a request of the node's own host that it is to leave.
pub const LEAVE: u8 = 12;

/// The kind of what a node's own host says of it.
pub const WORD: u8 = 13;

/// The kind of a packet of the arbiter, and how many bytes it has.
const REPLY: u8 = 7;

const REPLY_BYTES: usize = 29;

/// Where in a sealed packet its sender stands.
const SENDER: usize = 4;

/// Why a datagram is not handed to the node.
#[derive(Clone, Copy, PartialEq, Eq)]
pub enum Reason {
    /// It is of an address or a port that neither another node nor the arbiter has, or not of a kind that these send, or its seal names
    /// another sender.
    Elsewhere,
    /// Its seal says so.
    Sealed(Refused),
}

/// Whose address and port a datagram comes from.
#[derive(Clone, Copy, PartialEq, Eq)]
pub enum Sender {
    /// The node of that rank, which is another one, on that network.
    Rank(u8, Ring),
    Arbiter,
}

impl Sender {
    ghost use Rattle.std.specs.Prelude.{◌≡◌};

    /// Its seat.
    pub fn seat(self) -> u8
        ensures { result ≡ seat_of self }
    {
        match self {
            Sender::Rank(rank, _) => rank,
            Sender::Arbiter => ARBITER,
        }
    }
}

/// What is handed to the node: datagrams of other nodes and replies of the arbiter, and those alone that the receiver of seals takes, where
/// there is one; and votes of the quorum device of this host, where these are taken.
#[derive(Drop)]
pub struct Admission {
    pub peers: Peers,
    /// Where the arbiter is that the node polls, where it has one.
    pub arbiter: Option<SocketAddr>,
    receiver: Option<Receiver>,
    takes_votes: bool,
}

impl Admission {
    ghost use Rattle.std.specs.Prelude.{◌≡◌, OnOk, OnErr, IfOk, IfErr, IfSome, IfNone, true};
    ghost use Rattle.qn_peers.specs.declared.admission.Sender.{Sender};

    /// With these places, under that guard.
    pub fn new(peers: Peers, arbiter: Option<SocketAddr>, guarding: &Guarding) -> Admission
        ensures places { (result.peers ≡ peers) × (result.arbiter ≡ arbiter) }
        ensures opens { ReceivesBy peers guarding.now (keys_of guarding.now.guard) result.receiver }
        ensures votes { result.takes_votes ≡ takes_votes guarding.now }
    {
        Admission {
            peers,
            arbiter,
            receiver: receiver_for(&peers, guarding),
            takes_votes: guarding.takes_votes(),
        }
    }

    /// Whose address and port these are.
    pub fn sender_of(&self, from: SocketAddr) -> Option<Sender>
        ensures its { IfSome result (λ sender.
            IsOf self.now sender (socket_ip from) (socket_port from)) }
        ensures none { IfNone result ((sender : Sender)
            → IsOf self.now sender (socket_ip from) (socket_port from) → ⊥) }
    {
        if let Some((rank, ring)) = self.peers.sender_of(from) {
            return Some(Sender::Rank(rank, ring));
        }
        let arbiter = self.arbiter?;
        let is_it = arbiter.ip() == from.ip() && arbiter.port() == from.port();
        is_it.then_some(Sender::Arbiter)
    }

    /// The packet in a datagram of that address, where it is handed to the node. What is not changes nothing.
    pub fn take(&mut self, tick: u64, from: SocketAddr, bytes: &[u8]) -> Result<Admitted, Reason>
        ensures own { OnOk result
            (IsOwn self.old bytes.now (socket_ip from) (socket_port from)) }
        ensures handed { IfOk result (λ packet.
            IsHanded self.old.receiver tick bytes.now packet) }
        ensures moved { OnOk result
            (self.new.receiver ≡ receiver_after_taking self.old.receiver tick bytes.now) }
        ensures reason { IfErr result (λ why.
            IsRefused self.old tick (socket_ip from) (socket_port from) bytes.now why) }
        ensures same_places { (self.new.peers ≡ self.old.peers)
            × (self.new.arbiter ≡ self.old.arbiter) }
        ensures same { OnErr result (self.new ≡ self.old) }
    {
        match self.open(tick, from, bytes) {
            Ok(inner) => Ok(Admitted::of(inner)),
            Err(reason) => Err(reason),
        }
    }

    /// A vote of the quorum device of this host, where these are taken and the datagram is one.
    pub fn take_vote(&self, from: SocketAddr, bytes: &[u8]) -> Option<Admitted>
        ensures its { IfSome result (λ packet. packet ≡ front_of bytes.now) }
        ensures vote { IfSome result (λ _. IsVoteHere self.now (socket_ip from) bytes.now) }
        ensures none { IfNone result (IsVoteHere self.now (socket_ip from) bytes.now → ⊥) }
    {
        let is_here = from.ip() == IpAddr::V4(Ipv4Addr::LOCALHOST);
        if self.takes_votes && is_here && is_vote(bytes) {
            Some(Admitted::of(bytes))
        } else {
            None
        }
    }

    /// What is handed on of a datagram of that address, where it is.
    fn open<'a>(&mut self, tick: u64, from: SocketAddr, bytes: &'a [u8]) -> Result<&'a [u8], Reason>
        ensures own { OnOk result
            (IsOwn self.old bytes.now (socket_ip from) (socket_port from)) }
        ensures opened { IfOk result (λ inner.
            IsOpened self.old.receiver tick bytes.now inner.now) }
        ensures moved { OnOk result
            (self.new.receiver ≡ receiver_after_taking self.old.receiver tick bytes.now) }
        ensures reason { IfErr result (λ why.
            IsRefused self.old tick (socket_ip from) (socket_port from) bytes.now why) }
        ensures same_places { (self.new.peers ≡ self.old.peers)
            × (self.new.arbiter ≡ self.old.arbiter) }
        ensures same { OnErr result (self.new ≡ self.old) }
    {
        let Some(sender) = self.sender_of(from) else {
            return Err(Reason::Elsewhere);
        };
        match &mut self.receiver {
            None if is_strange(sender, bytes) => Err(Reason::Elsewhere),
            None => Ok(bytes),
            Some(_) if names_other(bytes, sender.seat()) => Err(Reason::Elsewhere),
            Some(receiver) => receiver.take(tick, bytes).map_err(Reason::Sealed),
        }
    }
}

/// Whether a datagram that is not handed on came before over the other of two networks, or may have: its number was taken, or is too far behind.
pub fn is_double(peers: &Peers, sender: Option<Sender>, reason: Reason) -> bool
    ensures { result ≡ is_double peers.now sender reason }
{
    let Reason::Sealed(Refused::Old) = reason else {
        return false;
    };
    matches!(sender, Some(Sender::Rank(_, _))) && peers.networks.second.is_some()
}

/// The receiver of seals of a node, where there are keys.
fn receiver_for(peers: &Peers, guarding: &Guarding) -> Option<Receiver>
    ensures { ReceivesBy peers.now guarding.now (keys_of guarding.now.guard) result }
{
    let keys = guarding.keys()?;
    Some(Receiver::new(peers.own, peers.count(), keys, guarding.texts))
}

/// Whether a datagram without a seal is none that this sender sends: of a node what is of this host alone, or a reply, of the arbiter
/// whatever is no reply.
fn is_strange(sender: Sender, bytes: &[u8]) -> bool
    ensures { result ≡ is_strange sender bytes.now }
{
    match sender {
        Sender::Rank(_, _) => is_of_host(bytes) || is_reply(bytes),
        Sender::Arbiter => !is_reply(bytes),
    }
}

/// Whether a sealed packet, which a datagram may be, names another sender than that seat.
fn names_other(bytes: &[u8], sender: u8) -> bool
    ensures { result ≡ names_other bytes.now sender }
{
    bytes.len() > SENDER && bytes[SENDER] != sender
}

/// Whether a datagram is as a request of this host that its node is to leave: of a kind that no packet of a network has.
pub(crate) fn is_request(bytes: &[u8]) -> bool
    ensures { result ≡ is_request bytes.now }
{
    matches!(bytes, [b'Q', b'N', LEAVE, _])
}

/// Whether a datagram is as what a host says of its node: of a kind that no packet of a network has.
pub(crate) fn is_word(bytes: &[u8]) -> bool
    ensures { result ≡ is_word bytes.now }
{
    matches!(bytes, [b'Q', b'N', WORD, _, _])
}

/// Whether a datagram is as what a node takes of its own host alone: a vote, a request that it is to leave, or what that says of it.
fn is_of_host(bytes: &[u8]) -> bool
    ensures { result ≡ is_of_host bytes.now }
{
    is_vote(bytes) || is_request(bytes) || is_word(bytes)
}

/// Whether a datagram is as a vote is: of its kind and of its length.
fn is_vote(bytes: &[u8]) -> bool
    ensures { result ≡ is_vote bytes.now }
{
    matches!(bytes, [b'Q', b'N', VOTE, _])
}

/// Whether a datagram is as a reply is: of its kind and of its length.
fn is_reply(bytes: &[u8]) -> bool
    ensures { result ≡ is_reply bytes.now }
{
    bytes.len() == REPLY_BYTES && bytes[0] == b'Q' && bytes[1] == b'N' && bytes[2] == REPLY
}
