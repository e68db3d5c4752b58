//! Writes a packet as its bytes.
ghost use Rattle.std.specs.Prelude.{◌≡◌, ◌+◌, ◌≤◌, ◌++◌};
ghost use Rattle.arrayvec.specs.ArrayVec.{array_vec_len};
ghost use Rattle.qn_wire.specs.Packets.{packet_bytes, ask_fields, as_ask};

use crate::fields::{self, Spelling};
use crate::kinds::{ASK, HEARD, HELLO, TELL, VOTE};
use arrayvec::ArrayVec;
use qn_base::{add, add_u64};
use qn_model::{Ask, Packet, Tell};

/// Empties `into`, and writes the spelling of the packet: at most 34 bytes. A packet that is not well formed has a
/// spelling too, which [`get_packet`](crate::get_packet) does not read.
#[tactic(auto, unfolding(crate::specs::Packets::packet_bytes))]
pub fn put_packet(packet: &Packet, into: &mut ArrayVec<u8, 128>)
    ensures spelling { into.new.items ≡ packet_bytes packet.now }
    ensures short { array_vec_len into.new ≤ 34 }
{
    match packet {
        Packet::Ask(ask) => {
            fields::begin(into, ASK);
            add_ask(into, ask);
        }
        Packet::Tell(tell) => {
            fields::begin(into, TELL);
            add_ask(into, &as_ask(tell));
            add(into, &[u8::from(tell.holds) + 2 * u8::from(tell.released)]);
        }
        Packet::Hello { from } => {
            fields::begin(into, HELLO);
            add(into, &[from.0]);
        }
        Packet::Announce { from, view } => {
            fields::put_announce(into, fields::announce_kind(*view), *from, *view);
        }
        Packet::Vote { yes } => {
            fields::begin(into, VOTE);
            add(into, &[u8::from(*yes)]);
        }
        Packet::Heard {
            from,
            said,
            standing,
        } => {
            fields::begin(into, HEARD);
            add(into, &[from.0]);
            fields::add_said(into, *said);
            add(into, &[standing.flags, standing.weight]);
        }
    }
}

fn add_ask(spelling: &mut Spelling, ask: &Ask)
    requires { array_vec_len spelling.old + 30 ≤ 128 }
    ensures { spelling.new.items ≡ spelling.old.items ++ ask_fields ask.now }
{
    add(spelling, &[ask.from.0, ask.to.0]);
    add_u64(spelling, ask.incarnation);
    add_u64(spelling, ask.install);
    fields::add_view(spelling, ask.view);
}

/// The fields of an Ask that a Tell has too.
pub fn as_ask(tell: &Tell) -> Ask
    ensures { result ≡ as_ask tell.now }
{
    Ask {
        from: tell.from,
        to: tell.to,
        incarnation: tell.incarnation,
        install: tell.install,
        view: tell.view,
    }
}
