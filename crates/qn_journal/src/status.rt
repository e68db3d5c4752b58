//! What a running node shows of itself in its status file, as a value.
ghost use Rattle.std.specs.Prelude.{◌≡◌, IfSome};
ghost use Rattle.qn_journal.specs.Statuses.{IsStatusOf, Shows};

use crate::shown_text::ShownText;
use arrayvec::{ArrayString, ArrayVec};
use qn_base::{Mask, NodeId, Rank, View};
use qn_event::Moment;
use qn_live::Standing;
use qn_machine::Voices;
use qn_model::{Nodes, Phase};
use qn_names::write_why;
use qn_shown::{
    Arbiter, Candidate, Counts, MailState as ShownMail, Mailbox as ShownMailbox, Peer, ShortString,
    Shown, ShownView,
};
use qn_told::{DeviceNews, MailState, Mailbox, NodeNames, Peers, Telling};
use std::fmt::Write;
use std::net::SocketAddr;
use std::str;

/// The high byte of a view's number names who may start: a number below this one names nobody in particular.
pub(crate) const NAMES: u64 = 1 << 56;

/// The seat of the arbiter, one above those of the ranks.
const ARBITER: usize = 32;

/// The most bytes of a name.
const MOST_NAME: usize = 63;

/// The most bytes of another text.
const MOST_TEXT: usize = 256;

/// The most bytes of an address with its port, of IPv6 with a number of its interface.
const ADDRESS: usize = 64;

/// What a status is made of.
#[derive(Clone, Copy)]
pub(crate) struct Seen<'a> {
    pub(crate) at: Moment,
    pub(crate) pid: u32,
    pub(crate) nodes: &'a Nodes,
    pub(crate) names: NodeNames<'a>,
    pub(crate) me: Rank,
    pub(crate) standing: &'a Standing,
    pub(crate) loop_ms: u64,
    pub(crate) mailbox: &'a Mailbox,
    pub(crate) peers: &'a Peers,
    pub(crate) voices: &'a Voices,
    pub(crate) telling: &'a Telling,
    pub(crate) device: &'a DeviceNews,
    /// On how many of three images it runs, where these are fewer.
    pub(crate) images: Option<u64>,
    /// The timeout of the quorum device in milliseconds; 0 where there is none.
    pub(crate) timeout: u64,
    pub(crate) counts: Counts,
    /// How the run ended, where it has.
    pub(crate) end: Option<&'a [u8]>,
}

/// The text of the status, with the end of its line; None where it has no room.
pub(crate) fn status_of(seen: &Seen<'_>) -> Option<ShownText>
    ensures { IfSome result (IsStatusOf seen.now) }
{
    match shown_of(seen) {
        Some(shown) => ShownText::of(&shown),
        None => None,
    }
}

/// What the node shows.
fn shown_of(seen: &Seen<'_>) -> Option<Shown>
    ensures { IfSome result (Shows seen.now) }
{
    let standing = seen.standing;
    let (tick, time_ms) = (seen.at.tick, seen.at.time);
    let why = why_of(standing)?;
    Some(Shown {
        answer: standing.answer,
        arbiter: arbiter_of(seen),
        counts: seen.counts,
        end: end_of(seen.end),
        group: seen.telling.group,
        held_ms: seen.telling.held_ms(tick),
        holds: standing.holds,
        id: seen.nodes.id_of(seen.me),
        images: seen.images,
        incarnation: standing.incarnation,
        loop_ms: u32::try_from(seen.loop_ms).unwrap_or(u32::MAX),
        mailbox: mailbox_of(seen.mailbox),
        name: name_of(seen.names.at(usize::from(seen.me.0))),
        peers: peers_of(seen),
        phase: standing.phase,
        pid: u64::from(seen.pid),
        standing: seen.voices.standing(),
        tick,
        time_ms,
        view: view_of(seen.nodes, standing),
        why,
    })
}

/// What the node heard of its arbiter, and where that is; nothing of a node that polled none.
fn arbiter_of(seen: &Seen<'_>) -> Option<Arbiter> {
    let (device, tick) = (seen.device, seen.at.tick);
    Some(Arbiter {
        address: address_of(seen.voices.arbiter()),
        age_ms: device.age(tick)?,
        answer: device.answer(tick, seen.timeout),
        no: device.no(),
        polls: device.polls(),
        refused: seen.voices.refused(ARBITER),
        yes: device.yes(),
    })
}

/// An address with its port.
fn address_of(at: Option<SocketAddr>) -> Option<ShortString> {
    let at = at?;
    let mut spelling = ArrayString::<ADDRESS>::new();
    let _ = write!(spelling, "{at}");
    ShortString::of(spelling.as_str(), MOST_TEXT)
}

/// The text of an end, where the run has ended.
fn end_of(end: Option<&[u8]>) -> Option<ShortString> {
    ShortString::of(str::from_utf8(end?).ok()?, MOST_TEXT)
}

/// A name, where there is one that can be shown.
fn name_of(name: Option<&str>) -> Option<ShortString> {
    ShortString::of(name?, MOST_NAME)
}

/// The first condition that blocks a start.
fn why_of(standing: &Standing) -> Option<ShortString> {
    let mut condition = ArrayVec::new();
    write_why(&standing.why, &mut condition);
    ShortString::of(str::from_utf8(condition.as_slice()).ok()?, MOST_TEXT)
}

/// What the mailbox held at the last read, and who sent that.
fn mailbox_of(mailbox: &Mailbox) -> ShownMailbox {
    let (state, by) = match mailbox.state {
        MailState::Unread => (ShownMail::Unread, None),
        MailState::Held(mail) => (ShownMail::Holds(mail.message), mail.by),
        MailState::Damaged => (ShownMail::Damaged, None),
        MailState::Failed => (ShownMail::Failed, None),
    };
    ShownMailbox {
        state,
        by: by.map(|sender| sender.id),
        tick: mailbox.tick,
    }
}

/// The other nodes.
fn peers_of(seen: &Seen<'_>) -> ArrayVec<Peer, 32> {
    let mut peers = ArrayVec::new();
    for (rank, node) in seen.nodes.as_slice().iter().enumerate() {
        if rank != usize::from(seen.me.0) && !peers.is_full() {
            peers.push(peer_of(seen, rank, node.id));
        }
    }
    peers
}

/// What the node knows of the node at the place of a rank.
fn peer_of(seen: &Seen<'_>, rank: usize, id: NodeId) -> Peer {
    Peer {
        hello_tick: seen.peers.hello(rank),
        id,
        name: name_of(seen.names.at(rank)),
        network_down: seen.voices.lost_network(rank),
        refused: Some(seen.voices.refused(rank)),
        told: seen.voices.heard(rank),
    }
}

/// The view of a node that has not ended: which node its number names as the one that may start, the rest of its number, and its members.
fn view_of(nodes: &Nodes, standing: &Standing) -> Option<ShownView> {
    let (_, view) = standing.view?;
    if matches!(standing.phase, Phase::Gone) {
        return None;
    }
    Some(ShownView {
        candidate: candidate_of(nodes, view),
        id: view.id % NAMES,
        members: members_of(nodes, view.members),
    })
}

/// Whom a view names as the one that may start.
fn candidate_of(nodes: &Nodes, view: View) -> Candidate {
    if view.is_barred() {
        return Candidate::Nobody;
    }
    match u8::try_from(nodes.len()) {
        Ok(count) => named_of(nodes, view.named(count)),
        Err(_) => Candidate::Unnamed,
    }
}

/// The node of that rank as the one that may start, or nobody in particular.
fn named_of(nodes: &Nodes, rank: Option<Rank>) -> Candidate {
    match rank {
        Some(rank) => Candidate::Named(nodes.id_of(rank)),
        None => Candidate::Unnamed,
    }
}

/// The ids of the members.
fn members_of(nodes: &Nodes, members: Mask) -> ArrayVec<NodeId, 32> {
    let mut ids = ArrayVec::new();
    for (rank, node) in nodes.as_slice().iter().enumerate() {
        if is_in(members, rank) && !ids.is_full() {
            ids.push(node.id);
        }
    }
    ids
}

/// Whether the node of that place is one of the members.
fn is_in(members: Mask, place: usize) -> bool {
    match u8::try_from(place) {
        Ok(rank) => members.has(Rank(rank)),
        Err(_) => false,
    }
}
