//! Reads bytes as a packet.
ghost use Rattle.std.specs.Prelude.{◌≡◌, ◌≤◌, ◌<◌, ◌+◌, length, IfSome, IfNone, false};
ghost use Rattle.std.specs.Option.{option_map_or};
ghost use Rattle.std.specs.Str.{bytes_eq};
ghost use Rattle.qn_base.specs.declared.ids.Rank.{Rank};
ghost use Rattle.qn_model.specs.declared.packets.Packet.{Packet};
ghost use Rattle.qn_wire.specs.Packets.{announce_bytes, named_bytes, is_rank, is_said, is_view, is_ask, is_well_formed, Spells};
ghost use Rattle.qn_wire.specs.Reading.{is_spelling, packet_of, fields_of, follows_at, said_at, standing_at, view_at, ask_at, tell_at};

use crate::fields::put_announce;
use crate::kinds::{ANNOUNCE, ASK, HEARD, HELLO, NAMED, TELL, VOTE};
use crate::writing::{as_ask, put_packet};
use arrayvec::ArrayVec;
use byteorder::{BigEndian, ByteOrder};
use qn_base::{Mask, Rank, Said, Standing, View};
use qn_model::{Ask, Packet, Tell};

/// The packet that these bytes spell: its ranks are below 32, and its view has members.
pub fn get_packet(from: &[u8]) -> Option<Packet>
    ensures some { IfSome result (Spells from.now) }
    ensures none { IfNone result ((packet : Packet) → Spells from.now packet → ⊥) }
    ensures gives { result ≡ packet_of from.now }
{
    read_packet(from)
}

#[tactic(auto, unfolding(crate::specs::Reading::packet_of))]
fn read_packet(from: &[u8]) -> Option<Packet>
    ensures { result ≡ packet_of from.now }
{
    let packet = read_fields(*from.get(2)?, from)?;
    if is_well_formed(&packet) && is_spelling(&packet, from) {
        Some(packet)
    } else {
        None
    }
}

/// Whether the bytes are the spelling of a packet, or that of an announcement in the kind of named ones.
fn is_spelling(packet: &Packet, from: &[u8]) -> bool
    ensures { result ≡ is_spelling packet.now from.now }
{
    let mut spelled = ArrayVec::new();
    put_packet(packet, &mut spelled);
    spelled.as_slice() == from || is_named_spelling(packet, from)
}

#[tactic(auto, unfolding(crate::specs::Packets::named_bytes))]
fn is_named_spelling(packet: &Packet, from: &[u8]) -> bool
    ensures { result
        ≡ option_map_or (λ named. bytes_eq named from.now) (named_bytes packet.now) false }
{
    match packet {
        Packet::Announce { from: sender, view } => is_announce(NAMED, *sender, *view, from),
        Packet::Ask(_)
        | Packet::Tell(_)
        | Packet::Hello { .. }
        | Packet::Vote { .. }
        | Packet::Heard { .. } => false,
    }
}

/// Whether the bytes are an announcement of that kind.
fn is_announce(kind: u8, sender: Rank, view: View, from: &[u8]) -> bool
    ensures { result ≡ bytes_eq (announce_bytes kind sender view) from.now }
{
    let mut spelled = ArrayVec::new();
    put_announce(&mut spelled, kind, sender, view);
    spelled.as_slice() == from
}

fn read_fields(kind: u8, from: &[u8]) -> Option<Packet>
    ensures { result ≡ fields_of kind from.now }
{
    match (kind, from.len()) {
        (ASK, 33) => Some(Packet::Ask(read_ask(from))),
        (TELL, 34) => Some(Packet::Tell(read_tell(from))),
        (HELLO, 4) => Some(Packet::Hello {
            from: Rank(from[3]),
        }),
        (ANNOUNCE, 16) => Some(Packet::Announce {
            from: Rank(from[3]),
            view: read_view(4, from),
        }),
        (VOTE, 4) => Some(Packet::Vote { yes: from[3] == 1 }),
        (HEARD, 12) => Some(Packet::Heard {
            from: Rank(from[3]),
            said: read_said(from),
            standing: read_standing(from),
        }),
        (NAMED, 16) => Some(Packet::Announce {
            from: Rank(from[3]),
            view: read_view(4, from),
        }),
        _ => None,
    }
}

fn read_ask(from: &[u8]) -> Ask
    requires { 33 ≤ length from.now }
    ensures { result ≡ ask_at from.now }
{
    Ask {
        from: Rank(from[3]),
        to: Rank(from[4]),
        incarnation: BigEndian::read_u64(from.split_at(5).1),
        install: BigEndian::read_u64(from.split_at(13).1),
        view: read_view(21, from),
    }
}

fn read_tell(from: &[u8]) -> Tell
    requires { 34 ≤ length from.now }
    ensures { result ≡ tell_at from.now }
{
    let shared = read_ask(from);
    let flags = from[33];
    Tell {
        from: shared.from,
        to: shared.to,
        incarnation: shared.incarnation,
        install: shared.install,
        view: shared.view,
        holds: flags % 2 == 1,
        released: flags >= 2,
    }
}

fn read_said(from: &[u8]) -> Said
    requires { 10 ≤ length from.now }
    ensures { result ≡ said_at from.now }
{
    Said {
        hears: Mask(BigEndian::read_u32(from.split_at(4).1)),
        follows: read_follows(from[8]),
        able: from[9] == 1,
    }
}

fn read_standing(from: &[u8]) -> Standing
    requires { 12 ≤ length from.now }
    ensures { result ≡ standing_at from.now }
{
    Standing {
        flags: from[10],
        weight: from[11],
    }
}

fn read_follows(byte: u8) -> Option<Rank>
    ensures { result ≡ follows_at byte }
{
    if byte == 32 { None } else { Some(Rank(byte)) }
}

/// The view whose number and members stand from that place on.
pub fn read_view(place: usize, from: &[u8]) -> View
    requires { place + 12 ≤ length from.now }
    ensures { result ≡ view_at place from.now }
{
    View {
        id: BigEndian::read_u64(from.split_at(place).1),
        members: Mask(BigEndian::read_u32(from.split_at(place + 8).1)),
    }
}

fn is_well_formed(packet: &Packet) -> bool
    ensures { result ≡ is_well_formed packet.now }
{
    match packet {
        Packet::Ask(ask) => is_ask(*ask),
        Packet::Tell(tell) => is_ask(as_ask(tell)),
        Packet::Hello { from } => is_rank(*from),
        Packet::Announce { from, view } => is_rank(*from) && is_view(*view),
        Packet::Vote { .. } => true,
        Packet::Heard { from, said, .. } => is_rank(*from) && is_said(*from, *said),
    }
}

fn is_ask(ask: Ask) -> bool
    ensures { result ≡ is_ask ask }
{
    is_rank(ask.from) && is_rank(ask.to) && is_view(ask.view)
}

fn is_said(from: Rank, said: Said) -> bool
    requires { from.0 < 32 }
    ensures { result ≡ is_said from said }
{
    said.hears.contains(from)
        && match said.follows {
            Some(rank) => is_rank(rank),
            None => true,
        }
}

/// Whether a view that a packet names is well formed: it has a member.
pub fn is_view(view: View) -> bool
    ensures { result ≡ is_view view }
{
    view.members.0 > 0
}

/// Whether a number that stands for a rank is one: it is below 32.
pub fn is_rank(rank: Rank) -> bool
    ensures { result ≡ is_rank rank }
{
    rank.0 < 32
}
