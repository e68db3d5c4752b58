//! The outputs of an entry as calls, and what their answers give the node.
ghost use Rattle.std.specs.Prelude.{◌≡◌, ◌<◌, ℕ, false, length};
ghost use Rattle.qn_base.specs.declared.calls.Call.{Call};
ghost use Rattle.qn_base.specs.Calls.{blank};
ghost use Rattle.qn_model.specs.Settings.{IsValid};
ghost use Rattle.qn_node.specs.Outputs.{IsNodeOutput};
ghost use Rattle.qn_live.specs.Asking.{IsServed, IsWithin, is_look, question_of, Tells};
ghost use Rattle.qn_live.specs.Decoding.{decoded_out};
ghost use Rattle.qn_live.specs.Machine.{operation_in};
ghost use Rattle.qn_live.specs.Performing.{end_after, end_in, halt_code, is_clean_close, out_call, waits_after};

use crate::asked::{Asked, Given, Room};
use crate::decoded::Decoded;
use crate::disk;
use crate::live_end::LiveEnd;
use crate::place::Waits;
use qn_base::Rank;
use qn_model::{DiskOp, HaltKind, Out, Outs, Settings, What};
use qn_wire::put_packet;

/// The call of an output, of the node of that rank in that incarnation.
#[tactic(auto, unfolding(crate::specs::Performing::out_call))]
pub fn ask(settings: &Settings, me: Rank, incarnation: u64, out: Out, room: &mut Room) -> Asked
    requires valid { IsValid settings.now }
    requires configured { me.0 < length settings.now.nodes }
    requires rank { IsNodeOutput settings.now out }
    ensures asked { question_of result room.new ≡ out_call settings.now me.0 incarnation out }
    ensures within { IsWithin result }
    ensures served { IsServed result }
    ensures looks { is_look result ≡ false }
{
    match out {
        Out::Stop => Asked::Stop,
        Out::Start => Asked::Start,
        Out::Feed => Asked::Feed,
        Out::Send(to, packet) => {
            put_packet(&packet, &mut room.sent);
            Asked::Send { to }
        }
        Out::Disk(op) => disk::ask(settings, me, incarnation, op, room),
        Out::Disarm => Asked::Disarm,
        Out::Halt(kind) => Asked::Halt {
            code: halt_code(kind),
        },
    }
}

/// The code of a halt: 2, 3 and 5 for a deadly message, 10 and the number of the cause for a boot.
fn halt_code(kind: HaltKind) -> u8
    ensures { result ≡ halt_code kind }
{
    match kind {
        HaltKind::Deadly(message) => message as u8,
        HaltKind::Boot(cause) => 10 + cause as u8,
    }
}

/// The disk operation of an output, if it is one.
pub fn operation_in(out: Out) -> Option<DiskOp>
    ensures { result ≡ operation_in out }
{
    match out {
        Out::Disk(op) => Some(op),
        Out::Stop | Out::Start | Out::Feed | Out::Send(..) | Out::Disarm | Out::Halt(_) => None,
    }
}

/// The answers that wait once an output was performed, and what the bytes are that it read.
#[tactic(auto, unfolding(crate::specs::Performing::waits_after))]
pub fn waits_after(
    settings: &Settings,
    waits: Waits,
    out: Out,
    given: Given,
    room: &Room,
) -> (Waits, Decoded)
    ensures waits { (call : Call) (me number : ℕ)
        → Tells call given room.now
        → blank call ≡ out_call settings.now me number out
        → result.0 ≡ waits_after settings.now out call waits }
    ensures decoded { result.1 ≡ decoded_out out given room.now }
{
    match out {
        Out::Stop => {
            let stopped = Waits {
                stopped: Some(given.ok),
                disk: waits.disk,
            };
            (stopped, Decoded::Nothing)
        }
        Out::Disk(op) => {
            let answer = disk::answer(settings, op, given.ok, &room.sector);
            let answered = Waits {
                stopped: waits.stopped,
                disk: Some(answer.entry),
            };
            (answered, answer.decoded)
        }
        Out::Start | Out::Feed | Out::Send(..) | Out::Disarm | Out::Halt(_) => {
            (waits, Decoded::Nothing)
        }
    }
}

/// How the run ends after these outputs of an entry: after a Halt and after a Disarm.
pub fn end_in(entry: What, outs: &Outs) -> Option<LiveEnd>
    ensures { result ≡ end_in entry outs.now }
{
    for out in outs.as_slice() {
        if let Some(end) = end_after(entry, *out) {
            return Some(end);
        }
    }
    None
}

fn end_after(entry: What, out: Out) -> Option<LiveEnd>
    ensures { result ≡ end_after entry out }
{
    match out {
        Out::Halt(HaltKind::Deadly(message)) => Some(LiveEnd::SelfReset(message)),
        Out::Halt(HaltKind::Boot(cause)) => Some(LiveEnd::BootHalted(cause)),
        Out::Disarm => Some(LiveEnd::Left {
            clean: is_clean_close(entry),
        }),
        Out::Stop | Out::Start | Out::Feed | Out::Send(..) | Out::Disk(_) => None,
    }
}

fn is_clean_close(entry: What) -> bool
    ensures { result ≡ is_clean_close entry }
{
    matches!(entry, What::Closed(true))
}
