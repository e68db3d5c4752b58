//! Which entry a turn takes.
ghost use Rattle.std.specs.Prelude.{◌≡◌, ◌≤◌, ◌||◌, length, option_and_then, option_map};
ghost use Rattle.qn_base.specs.declared.calls.Received.{Received};
ghost use Rattle.qn_polls.specs.Poller.{poller_of};
ghost use Rattle.qn_safety.specs.Poller.{answer_taken};
ghost use Rattle.qn_live.specs.Polling.{answered_at, choice_beside, reply_in};
ghost use Rattle.qn_io.specs.Receives.{FitsPacket, received};
ghost use Rattle.qn_live.specs.Choosing.{choice_of, choice_where, failed_answer, heard, is_entry_for, is_request, look_after, looked, packet_in, ready};
ghost use Rattle.qn_live.specs.Runs.{loop_after};

use crate::decoded::Came;
use crate::place::{Choice, Waits};
use crate::words::Own;
use qn_base::Rank;
use qn_io::{Got, PACKET};
use qn_member::NamingMember;
use qn_model::{HeaderSeen, MailSeen, Packet, SlotSeen, What};
use qn_polls::{Poller, get_reply};
use qn_safety::Reply;
use qn_wire::get_packet;

/// What is handed to the node as received where its host asks it to leave: `QN`, a kind that no packet has, and 1.
const LEAVE_REQUEST: [u8; 4] = [b'Q', b'N', 12, 1];

/// The entry of a turn that needs no packet, and the answers that wait then. `rests` says that the turn before took a
/// failed answer of the disk.
pub fn ready(leaves: bool, rests: bool, waits: Waits) -> Option<(What, Waits)>
    ensures { result ≡ ready leaves rests waits }
{
    if let Some(ok) = waits.stopped {
        return Some((
            What::Stopped(ok),
            Waits {
                stopped: None,
                disk: waits.disk,
            },
        ));
    }
    match waits.disk {
        Some(answer) if !rests => Some((
            answer,
            Waits {
                stopped: None,
                disk: None,
            },
        )),
        _ => leaves.then_some((What::Leave, waits)),
    }
}

/// What a turn takes, by the packet and the reply that were received.
pub fn choose(me: Rank, polls: bool, packet: Option<Packet>, reply: Option<Reply>) -> Choice
    ensures { (got : Received)
        → packet ≡ packet_in got
        → reply ≡ reply_in got
        → result ≡ choice_where polls me.0 got }
{
    let before = choice_of(me, packet);
    if polls {
        choose_beside(me, reply, before)
    } else {
        before
    }
}

/// The packet that came, where it is one.
pub fn packet_in(got: Got, packet: &[u8; PACKET]) -> Option<Packet>
    requires { FitsPacket got }
    ensures { result ≡ packet_in (received got packet.now) }
{
    match got {
        Got::Packet(length) => get_packet(&packet[..length]),
        Got::Nothing | Got::Failed => None,
    }
}

/// Whether the host of the node has asked it to leave: before, or by what came now.
pub fn heard_request(asked: bool, came: Came) -> bool
    ensures { result ≡ (asked || came.is_request) }
{
    asked || came.is_request
}

/// Whether that is the request of this host that the node is to leave, of which no packet has the bytes.
pub fn is_request(got: Got, packet: &[u8; PACKET]) -> bool
    requires { FitsPacket got }
    ensures { result ≡ is_request (received got packet.now) }
{
    match got {
        Got::Packet(length) => &packet[..length] == LEAVE_REQUEST.as_slice(),
        Got::Nothing | Got::Failed => false,
    }
}

/// The reply of an arbiter that came, where it is one.
pub fn reply_in(got: Got, packet: &[u8; PACKET]) -> Option<Reply>
    requires { FitsPacket got }
    ensures { result ≡ reply_in (received got packet.now) }
{
    match got {
        Got::Packet(length) => get_reply(&packet[..length]),
        Got::Nothing | Got::Failed => None,
    }
}

fn choose_beside(me: Rank, reply: Option<Reply>, before: Choice) -> Choice
    ensures { result ≡ choice_beside me.0 reply before }
{
    match (reply, before) {
        (Some(reply), _) if reply.to.0 == me.0 => Choice::Answer(reply),
        (Some(_), _) => Choice::Open(None),
        (None, Choice::Whole(What::Device(_))) => Choice::Open(None),
        (None, other) => other,
    }
}

/// A choice at its tick: a reply that the poller takes is the device's answer, and any other is nothing.
pub fn answered_at(tick: u64, poller: &Option<Poller>, choice: Choice) -> Choice
    ensures { result ≡ answered_at tick (option_map poller_of poller.now) choice }
{
    let Choice::Answer(reply) = choice else {
        return choice;
    };
    match answer_taken(tick, poller, &reply) {
        Some(agrees) => Choice::Whole(What::Device(agrees)),
        None => Choice::Open(None),
    }
}

fn answer_taken(tick: u64, poller: &Option<Poller>, reply: &Reply) -> Option<bool>
    ensures { result ≡ option_and_then (answer_taken tick reply.now) (option_map poller_of poller.now) }
{
    match poller {
        Some(poller) => poller.reply(tick, reply),
        None => None,
    }
}

fn choice_of(me: Rank, packet: Option<Packet>) -> Choice
    ensures { result ≡ choice_of me.0 packet }
{
    match packet {
        Some(Packet::Ask(ask)) if ask.to.0 == me.0 => Choice::Whole(What::Ask(ask)),
        Some(Packet::Tell(tell)) if tell.to.0 == me.0 => Choice::Whole(What::Tell(tell)),
        Some(Packet::Vote { yes }) => Choice::Whole(What::Device(yes)),
        other => Choice::Open(other),
    }
}

/// The entry of a turn at its tick, by what the node says of itself. Where the choice is open the view maker is told that and what
/// came, and looks.
pub fn look(member: &mut Option<NamingMember>, own: Own, choice: Choice, tick: u64) -> What
    ensures { looked tick own choice member.old ≡ (member.new, result) }
{
    match choice {
        Choice::Whole(entry) => entry,
        Choice::Answer(_) => What::Tick,
        Choice::Open(packet) => match member {
            Some(member) => look_after_packet(member, own, packet, tick),
            None => What::Tick,
        },
    }
}

fn hear(member: &mut NamingMember, packet: Option<Packet>, tick: u64)
    ensures { member.new ≡ heard tick packet member.old }
{
    match packet {
        Some(Packet::Hello { from }) => member.on_plain_hello(tick, from),
        Some(
            Packet::Heard {
                from,
                said,
                standing,
            },
        ) => {
            member.on_hello(tick, from, said);
            member.on_standing(from, standing);
        }
        Some(Packet::Announce { from, view }) => member.on_announce(tick, from, view),
        Some(Packet::Ask(_) | Packet::Tell(_) | Packet::Vote { .. }) | None => {}
    }
}

fn look_after_packet(member: &mut NamingMember, own: Own, packet: Option<Packet>, tick: u64) -> What
    ensures { looked tick own (Choice.Open packet) (Some member.old) ≡ (Some member.new, result) }
{
    hear(member, packet, tick);
    member.stand(own.said, own.holds);
    match member.on_tick(tick) {
        Some(view) => What::View(view),
        None => What::Tick,
    }
}

/// The tick of the last look of the view maker, after a turn took this choice at a tick. While there is no view maker each entry
/// counts as a look.
pub fn look_after(choice: Choice, member: &Option<NamingMember>, tick: u64, last: u64) -> u64
    ensures { result ≡ look_after tick choice member.now last }
{
    match choice {
        Choice::Open(_) => tick,
        Choice::Whole(_) | Choice::Answer(_) => match member {
            Some(_) => last,
            None => tick,
        },
    }
}

/// Whether an entry is the failed answer of a disk operation of a node that takes part.
pub fn failed_answer(entry: What) -> bool
    ensures { result ≡ failed_answer entry }
{
    match entry {
        What::SlotRead(_, seen) => matches!(seen, SlotSeen::Failed),
        What::MailRead(seen) => matches!(seen, MailSeen::Failed),
        What::MailWritten(_, ok) | What::Closed(ok) => !ok,
        What::Begin
        | What::BeginClean
        | What::Header(_)
        | What::MailChecked(_)
        | What::Claimed(_)
        | What::Cleared(_)
        | What::View(_)
        | What::Ask(_)
        | What::Tell(_)
        | What::Device(_)
        | What::Tick
        | What::Stopped(_)
        | What::Leave => false,
    }
}

/// The loop's time after an entry, in milliseconds: that of the header that it gives, else the one before.
pub fn loop_after(entry: What, before: u64) -> u64
    ensures { result ≡ loop_after entry before }
{
    match entry {
        What::Header(HeaderSeen::Read { timing, .. }) => timing.loop_ms,
        _ => before,
    }
}
