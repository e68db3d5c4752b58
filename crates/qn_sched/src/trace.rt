//! Writes the trace line of a report.
ghost use Rattle.std.specs.Prelude.{◌≡◌, ◌≤◌, ◌+◌, ◌*◌, ◌++◌, [], None, Some, length, map, codes, decimal};
ghost use Rattle.qn_model.specs.Messages.{message_name};
ghost use Rattle.qn_model.specs.Settings.{ids};
ghost use Rattle.qn_sched.specs.EventLines.{id_word};
ghost use Rattle.qn_sched.specs.TraceLines.{disk_word, halt_word, holders_text, out_word, outs_text, packet_word, state_text, time_text, touched_text, touched_with, trace_line, trace_line_with};

use crate::kept_beginning::add_beginning;
use crate::text::{add_id, add_joined, member_ids};
use arrayvec::ArrayVec;
use qn_base::{Mask, Rank, add, add_number};
use qn_model::{DiskOp, HaltKind, Message, Nodes, Out, Outs, Packet, Report, Settings};
use qn_names::{add_answer, add_numbered, add_why, cause_number};

/// Empties `into` and writes the trace line of the event of that number, without its end, in the form of a
/// pass where no node is touched. The id of a rank that is not configured is 0.
#[tactic(auto, unfolding(crate::specs::TraceLines::trace_line))]
pub fn write_trace(number: u64, report: &Report, settings: &Settings, into: &mut ArrayVec<u8, 4096>)
    ensures text { into.new.items ≡ trace_line (ids settings.now.nodes) number report.now }
    ensures fits { length into.new.items ≤ 4000 }
{
    let nodes = &settings.nodes;
    begin_line(number, report.time, into);
    match report.touched {
        None => add_untouched(into, nodes, report, b"- -"),
        Some(rank) => add_touched(into, nodes, report, rank),
    }
}

/// The same as `write_trace`, with a text of its own in place of the outputs of the node, or of the two dashes of a
/// pass where no node is touched.
#[tactic(auto, unfolding(crate::specs::TraceLines::trace_line_with))]
pub fn write_trace_with(
    number: u64,
    report: &Report,
    said: &[u8],
    settings: &Settings,
    into: &mut ArrayVec<u8, 4096>,
)
    requires short { length said.now ≤ 100 }
    ensures text { into.new.items
        ≡ trace_line_with (ids settings.now.nodes) number report.now said.now }
    ensures fits { length into.new.items ≤ 4000 }
{
    let nodes = &settings.nodes;
    begin_line(number, report.time, into);
    match report.touched {
        None => add_untouched(into, nodes, report, said),
        Some(rank) => add_said(into, nodes, report, rank, said),
    }
}

/// Empties `into` and writes the number of an event and its time.
fn begin_line(number: u64, time: u64, into: &mut ArrayVec<u8, 4096>)
    ensures text { into.new.items ≡ decimal number ++ time_text time }
    ensures len { length into.new.items ≤ 50 }
{
    into.clear();
    add_beginning(into, number, time);
}

/// Adds what stands after the time where no node is touched, with this text in place of a node and its outputs.
pub(crate) fn add_untouched(
    into: &mut ArrayVec<u8, 4096>,
    nodes: &Nodes,
    report: &Report,
    said: &[u8],
)
    requires room { length into.old.items ≤ 100 }
    requires short { length said.now ≤ 100 }
    ensures text { into.new.items
        ≡ into.old.items ++ touched_with (ids nodes.now) report.now said.now None }
    ensures len { length into.new.items ≤ length into.old.items + 3000 }
{
    add(into, b" ");
    add(into, said);
    add(into, b" holders=");
    add_holders(into, nodes, report.holders);
}

/// Adds what stands after the time at an event of a node.
#[inline(never)]
pub(crate) fn add_touched(into: &mut ArrayVec<u8, 4096>, nodes: &Nodes, report: &Report, rank: Rank)
    requires { length into.old.items ≤ 100 }
    ensures text { into.new.items
        ≡ into.old.items ++ touched_text (ids nodes.now) report.now (Some rank) }
    ensures len { length into.new.items ≤ length into.old.items + 3000 }
{
    add(into, b" ");
    add_id(into, nodes, rank);
    add(into, b" ");
    add_outs(into, nodes, &report.outs);
    add_state(into, nodes, report);
}

/// Adds the same, with this text in place of the outputs.
fn add_said(into: &mut ArrayVec<u8, 4096>, nodes: &Nodes, report: &Report, rank: Rank, said: &[u8])
    requires room { length into.old.items ≤ 100 }
    requires short { length said.now ≤ 100 }
    ensures text { into.new.items
        ≡ into.old.items ++ touched_with (ids nodes.now) report.now said.now (Some rank) }
    ensures len { length into.new.items ≤ length into.old.items + 3000 }
{
    add(into, b" ");
    add_id(into, nodes, rank);
    add(into, b" ");
    add(into, said);
    add_state(into, nodes, report);
}

/// Adds what stands after the outputs of a node.
fn add_state(into: &mut ArrayVec<u8, 4096>, nodes: &Nodes, report: &Report)
    requires { length into.old.items ≤ 2000 }
    ensures text { into.new.items ≡ into.old.items ++ state_text (ids nodes.now) report.now }
    ensures len { length into.new.items ≤ length into.old.items + 900 }
{
    add(into, b" holders=");
    add_holders(into, nodes, report.holders);
    add_answer(into, &report.answer);
    add(into, b" why=");
    add_why(into, &report.why);
}

/// Adds the ids of the nodes that hold the resource, or a dash.
pub(crate) fn add_holders(into: &mut ArrayVec<u8, 4096>, nodes: &Nodes, holders: Mask)
    requires { length into.old.items ≤ 3000 }
    ensures text { into.new.items ≡ into.old.items ++ holders_text (ids nodes.now) holders }
    ensures len { length into.new.items ≤ length into.old.items + 21 * 32 }
{
    if holders.first(nodes.len() as u8).is_none() {
        add(into, b"-");
    } else {
        add_holder_ids(into, nodes, holders);
    }
}

/// Adds the ids of the nodes that hold the resource, or a dash, by a list of them.
fn add_holder_ids(into: &mut ArrayVec<u8, 4096>, nodes: &Nodes, holders: Mask)
    requires { length into.old.items ≤ 3000 }
    ensures text { into.new.items ≡ into.old.items ++ holders_text (ids nodes.now) holders }
    ensures len { length into.new.items ≤ length into.old.items + 21 * 32 }
{
    let list = member_ids(nodes, holders);
    if list.is_empty() {
        add(into, b"-");
    } else {
        add_joined(into, b'+', list.as_slice());
    }
}

/// Adds the outputs, or a dash.
pub(crate) fn add_outs(into: &mut ArrayVec<u8, 4096>, nodes: &Nodes, outs: &Outs)
    requires { length into.old.items ≤ 300 }
    ensures text { into.new.items ≡ into.old.items ++ outs_text (ids nodes.now) outs.now }
    ensures len { length into.new.items ≤ length into.old.items + 1640 }
{
    let outs = outs.as_slice();
    let Some((first, others)) = outs.split_first() else {
        add(into, b"-");
        return;
    };
    add_out(into, nodes, first);
    'others: for out in others {
        add(into, b",");
        add_out(into, nodes, out);
    }
}

/// Adds one output.
fn add_out(into: &mut ArrayVec<u8, 4096>, nodes: &Nodes, out: &Out)
    requires { length into.old.items ≤ 4000 }
    ensures text { into.new.items ≡ into.old.items ++ out_word (ids nodes.now) out.now }
    ensures len { length into.new.items ≤ length into.old.items + 40 }
{
    match *out {
        Out::Stop => add(into, b"stop"),
        Out::Start => add(into, b"start"),
        Out::Feed => add(into, b"feed"),
        Out::Send(rank, packet) => add_send(into, nodes, rank, packet),
        Out::Disk(op) => add_op(into, nodes, op),
        Out::Disarm => add(into, b"disarm"),
        Out::Halt(kind) => add_halt(into, kind),
    }
}

fn add_send(into: &mut ArrayVec<u8, 4096>, nodes: &Nodes, rank: Rank, packet: Packet)
    requires { length into.old.items ≤ 4000 }
    ensures text { into.new.items
        ≡ into.old.items ++ (packet_word packet ++ codes ">" ++ id_word (ids nodes.now) rank) }
    ensures len { length into.new.items ≤ length into.old.items + 40 }
{
    add_packet(into, packet);
    add_id(into, nodes, rank);
}

/// Adds what stands before the id of the receiver of a packet.
fn add_packet(into: &mut ArrayVec<u8, 4096>, packet: Packet)
    requires { length into.old.items ≤ 4000 }
    ensures text { into.new.items ≡ into.old.items ++ (packet_word packet ++ codes ">") }
    ensures len { length into.new.items ≤ length into.old.items + 10 }
{
    match packet {
        Packet::Ask(_) => add(into, b"ask>"),
        Packet::Tell(_) => add(into, b"tell>"),
        Packet::Hello { .. } => add(into, b"hello>"),
        Packet::Announce { .. } => add(into, b"announce>"),
        Packet::Vote { .. } => add(into, b"vote>"),
        Packet::Heard { .. } => add(into, b"heard>"),
    }
}

fn add_op(into: &mut ArrayVec<u8, 4096>, nodes: &Nodes, op: DiskOp)
    requires { length into.old.items ≤ 4000 }
    ensures text { into.new.items ≡ into.old.items ++ disk_word (ids nodes.now) op }
    ensures len { length into.new.items ≤ length into.old.items + 40 }
{
    match op {
        DiskOp::ReadHeader => add(into, b"read-header"),
        DiskOp::ReadSlot(rank) => add_at(into, b"read-slot:", nodes, rank),
        DiskOp::CheckMail => add(into, b"check-mail"),
        DiskOp::WriteClaim(incarnation) => add_numbered(into, b"claim:", incarnation),
        DiskOp::WriteClear => add(into, b"clear"),
        DiskOp::ReadMail => add(into, b"read-mail"),
        DiskOp::WriteReset(rank) => add_at(into, b"reset:", nodes, rank),
        DiskOp::WriteClose(incarnation) => add_numbered(into, b"close:", incarnation),
    }
}

/// Adds a word and the id of a node.
fn add_at(into: &mut ArrayVec<u8, 4096>, word: &[u8], nodes: &Nodes, rank: Rank)
    requires { length into.old.items + length word.now ≤ 4010 }
    ensures text { into.new.items ≡ into.old.items ++ (word.now ++ id_word (ids nodes.now) rank) }
    ensures len { length into.new.items ≤ length into.old.items + length word.now + 20 }
{
    add(into, word);
    add_id(into, nodes, rank);
}

fn add_halt(into: &mut ArrayVec<u8, 4096>, kind: HaltKind)
    requires { length into.old.items ≤ 4000 }
    ensures text { into.new.items ≡ into.old.items ++ halt_word kind }
    ensures len { length into.new.items ≤ length into.old.items + 40 }
{
    match kind {
        HaltKind::Deadly(message) => add_message(into, message),
        HaltKind::Boot(cause) => add_numbered(into, b"halt:boot-", cause_number(cause)),
    }
}

fn add_message(into: &mut ArrayVec<u8, 4096>, message: Message)
    requires { length into.old.items ≤ 4000 }
    ensures text { into.new.items ≡ into.old.items ++ (codes "halt:" ++ message_name message) }
    ensures len { length into.new.items ≤ length into.old.items + 40 }
{
    add(into, b"halt:");
    add(into, message.name().as_bytes());
}
