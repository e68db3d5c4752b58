//! Writes a call with its answer as the line of a log.
ghost use Rattle.std.specs.Prelude.{◌≡◌, ◌≤◌, ◌<◌, ◌+◌, ◌++◌, codes, length};
ghost use Rattle.qn_audit.specs.Logs.{bytes_text, call_line, ok_text, read_text, received_text};

use arrayvec::ArrayVec;
use qn_base::{Bytes, Call, Received, add, add_number};
use qn_io::SECTOR;

/// The most bytes of the line of a call, with its end.
pub const LOG_LINE: usize = 1_088;

/// The most bytes of the digits of a sector.
const DIGITS: usize = 2 * SECTOR;

/// Empties `line` and puts the line of a call into it, without its end. The openings have none.
#[tactic(auto, unfolding(crate::specs::Logs::call_line))]
pub fn put_call_line(call: &Call, line: &mut ArrayVec<u8, LOG_LINE>)
    ensures line { line.new.items ≡ call_line call.now }
    ensures len { length line.new.items < LOG_LINE }
{
    line.clear();
    match call {
        Call::OpenImage { .. } | Call::OpenNode { .. } => {}
        Call::Now { tick } => {
            add(line, b"now ");
            add_number(line, *tick);
        }
        Call::Receive { got } => {
            add(line, b"receive ");
            add_received(line, got);
        }
        Call::Read { sector, bytes, ok } => {
            add(line, b"read ");
            add_number(line, u64::from(*sector));
            add(line, b" ");
            add_read(line, bytes, *ok);
        }
        Call::Write { sector, bytes, ok } => {
            add(line, b"write ");
            add_number(line, u64::from(*sector));
            add_bytes_and_ok(line, bytes, *ok);
        }
        Call::Feed { ok } => add_device(line, b"feed ", *ok),
        Call::Start { ok } => add_device(line, b"start ", *ok),
        Call::Stop { ok } => add_device(line, b"stop ", *ok),
        Call::Send { to, bytes, ok } => {
            add(line, b"send ");
            add_number(line, u64::from(to.0));
            add_bytes_and_ok(line, bytes, *ok);
        }
        Call::Disarm { ok } => add_device(line, b"disarm ", *ok),
        Call::Halt { code } => {
            add(line, b"halt ");
            add_number(line, u64::from(*code));
        }
    }
}

fn add_device(line: &mut ArrayVec<u8, LOG_LINE>, word: &[u8], ok: bool)
    requires { length line.old.items + length word.now ≤ 16 }
    ensures line { line.new.items ≡ line.old.items ++ word.now ++ ok_text ok }
    ensures len { length line.new.items ≤ 22 }
{
    add(line, word);
    add(line, ok_text(ok));
}

/// Bytes and an answer, a space before each.
fn add_bytes_and_ok(line: &mut ArrayVec<u8, LOG_LINE>, bytes: &Bytes, ok: bool)
    requires { length line.old.items ≤ 32 }
    ensures line { line.new.items
        ≡ line.old.items ++ codes " " ++ bytes_text bytes.now ++ codes " " ++ ok_text ok }
    ensures len { length line.new.items ≤ 1064 }
{
    add(line, b" ");
    add_bytes(line, bytes);
    add(line, b" ");
    add(line, ok_text(ok));
}

fn add_received(line: &mut ArrayVec<u8, LOG_LINE>, got: &Received)
    requires { length line.old.items ≤ 32 }
    ensures line { line.new.items ≡ line.old.items ++ received_text got.now }
    ensures len { length line.new.items ≤ length line.old.items + 1024 }
{
    match got {
        Received::Packet(bytes) => add_bytes(line, bytes),
        Received::Nothing => add(line, b"nothing"),
        Received::Failed => add(line, b"failed"),
    }
}

fn add_read(line: &mut ArrayVec<u8, LOG_LINE>, bytes: &Bytes, ok: bool)
    requires { length line.old.items ≤ 33 }
    ensures line { line.new.items ≡ line.old.items ++ read_text bytes.now ok }
    ensures len { length line.new.items ≤ length line.old.items + 1024 }
{
    if ok {
        add_bytes(line, bytes);
    } else {
        add(line, b"failed");
    }
}

/// Two digits a byte, and `-` for no bytes.
fn add_bytes(line: &mut ArrayVec<u8, LOG_LINE>, bytes: &Bytes)
    requires { length line.old.items ≤ 33 }
    ensures line { line.new.items ≡ line.old.items ++ bytes_text bytes.now }
    ensures len { length line.new.items ≤ length line.old.items + 1024 }
{
    let bytes = bytes.as_slice();
    if bytes.is_empty() {
        add(line, b"-");
        return;
    }
    let mut digits = [0; DIGITS];
    let digits = digits.split_at_mut(2 * bytes.len()).0;
    let _ = hex::encode_to_slice(bytes, digits);
    add(line, digits);
}

fn ok_text(ok: bool) -> &'static [u8]
    ensures text { result.now ≡ ok_text ok }
    ensures len { length result.now ≤ 6 }
{
    if ok { b"ok" } else { b"failed" }
}
