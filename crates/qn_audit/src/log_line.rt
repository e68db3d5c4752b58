//! Reads the line of a call, or names its first fault.
ghost use Rattle.std.specs.Prelude.{◌≡◌, ◌≤◌, ℕ, length, IfOk, OnOk};
ghost use Rattle.std.specs.Option.{option_copied};
ghost use Rattle.qn_io.specs.Receives.{FitsPacket};
ghost use Rattle.qn_live.specs.declared.asked.Room.{Room};
ghost use Rattle.qn_audit.specs.Auditing.{is_now};
ghost use Rattle.qn_audit.specs.LoggedCalls.{call_in, read_in, received_in, sector_read_in, IsToldIn};
ghost use Rattle.qn_audit.specs.Reading.{HasNoSpace, call_named, call_of, device_of, halt_of, now_of, ok_of, read_of, receive_of, received_of, sector_of, sector_read_of, send_of, write_of};
ghost use Rattle.qn_sched.specs.Words.{parts_left};

use crate::log_bytes::{bytes_into, sent_into};
use crate::log_name::{DeviceCall, LogName, log_name};
use crate::log_word::{expect_one_word, is_word};
use crate::logged_call::LoggedCall;
use qn_base::Rank;
use qn_io::{Got, PACKET, SECTOR};
use qn_live::{Asked, Given, Room};
use qn_model::LineFault;
use qn_sched::{first_part, next_word, number_between, one_word, three_words};

/// The call that a whole line of a log says, without its end, with its bytes in the room. The faults, in the order in
/// which they are tried: UnknownWord where the first word names no call, BadCount where the number of words is not that
/// of the call, and then the fault of the first word from left to right: BadNumber of a number or of bytes, UnknownWord
/// of an answer. What the room holds after a fault is not said.
#[tactic(auto, unfolding(crate::specs::Reading::call_of, crate::specs::Reading::call_of_words))]
pub fn read_call(line: &[u8], room: &mut Room) -> Result<LoggedCall, LineFault>
    ensures first_fault { read_in result room.new ≡ call_of line.now }
    ensures told { IfOk result (λ call. IsToldIn call room.new) }
{
    let (first, rest) = first_part(line, b' ');
    let name = log_name(first).ok_or(LineFault::UnknownWord)?;
    read_named(name, rest, room)
}

/// A call by what the first word of its line says. Nearly every line is a `now` or a `receive`: the readers of the others stay out
/// of the loop over the lines.
#[tactic(auto, unfolding(crate::specs::Reading::call_named))]
fn read_named(name: LogName, rest: Option<&[u8]>, room: &mut Room) -> Result<LoggedCall, LineFault>
    ensures call { read_in result room.new
        ≡ call_named name (parts_left 32 (option_copied rest.entry)) }
    ensures told { IfOk result (λ call. IsToldIn call room.new) }
{
    match name {
        LogName::Now => read_now(rest),
        LogName::Receive => read_receive(rest, room),
        LogName::Read => read_read(rest, room),
        LogName::Write => read_write(rest, room),
        LogName::Send => read_send(rest, room),
        LogName::Halt => read_halt(rest),
        LogName::OfDevice(device) => read_device(device, rest),
    }
}

/// `now T`
#[tactic(auto, unfolding(crate::specs::Reading::now_of))]
fn read_now(rest: Option<&[u8]>) -> Result<LoggedCall, LineFault>
    ensures call { (room : Room)
        → read_in result room ≡ now_of (parts_left 32 (option_copied rest.entry)) }
    ensures told { (room : Room) → IfOk result (λ call. IsToldIn call room) }
{
    let text = rest.ok_or(LineFault::BadCount)?;
    let tick = number_between(0, u64::MAX, text);
    expect_one_word(text, tick.is_ok())?;
    Ok(LoggedCall {
        asked: Asked::Now,
        given: Given {
            tick: tick?,
            got: Got::Nothing,
            ok: true,
        },
    })
}

/// `receive nothing`, `receive failed` or `receive HEX`
#[tactic(auto, unfolding(crate::specs::Reading::receive_of))]
fn read_receive(rest: Option<&[u8]>, room: &mut Room) -> Result<LoggedCall, LineFault>
    ensures call { read_in result room.new ≡ receive_of (parts_left 32 (option_copied rest.entry)) }
    ensures told { IfOk result (λ call. IsToldIn call room.new) }
{
    let text = rest.ok_or(LineFault::BadCount)?;
    let got = read_received(text, &mut room.packet);
    expect_one_word(text, got.is_ok())?;
    let got = got?;
    Ok(LoggedCall {
        asked: Asked::Receive,
        given: Given {
            tick: 0,
            got,
            ok: !matches!(got, Got::Failed),
        },
    })
}

#[tactic(auto, unfolding(crate::specs::Reading::received_of))]
fn read_received(word: &[u8], packet: &mut [u8; PACKET]) -> Result<Got, LineFault>
    ensures received { received_in result packet.new ≡ received_of word.now }
    ensures fits { IfOk result FitsPacket }
    ensures one_word { OnOk result (HasNoSpace word.now) }
{
    if is_word(word, b"nothing") {
        return Ok(Got::Nothing);
    }
    if is_word(word, b"failed") {
        return Ok(Got::Failed);
    }
    let length = bytes_into(0, word, packet)?;
    Ok(Got::Packet(length))
}

/// `read S HEX` or `read S failed`
#[tactic(auto, unfolding(crate::specs::Reading::read_of))]
#[inline(never)]
fn read_read(rest: Option<&[u8]>, room: &mut Room) -> Result<LoggedCall, LineFault>
    ensures call { read_in result room.new ≡ read_of (parts_left 32 (option_copied rest.entry)) }
    ensures told { IfOk result (λ call. IsToldIn call room.new) }
{
    let (sector, rest) = next_word(rest)?;
    let text = rest.ok_or(LineFault::BadCount)?;
    let ok = read_sector(text, &mut room.sector);
    expect_one_word(text, ok.is_ok())?;
    let sector = sector_of(sector)?;
    Ok(LoggedCall {
        asked: Asked::Read { sector },
        given: Given::done(ok?),
    })
}

/// The bytes of a sector that was read, put into `into`, or `failed`: whether the read succeeded.
#[tactic(auto, unfolding(crate::specs::Reading::sector_read_of))]
fn read_sector(word: &[u8], into: &mut [u8; SECTOR]) -> Result<bool, LineFault>
    ensures call { (sector : ℕ)
        → sector_read_in sector result into.new ≡ sector_read_of sector word.now }
    ensures one_word { OnOk result (HasNoSpace word.now) }
{
    if is_word(word, b"failed") {
        return Ok(false);
    }
    bytes_into(SECTOR, word, into)?;
    Ok(true)
}

/// `write S HEX ok` or `write S HEX failed`
#[tactic(auto, unfolding(crate::specs::Reading::write_of))]
#[inline(never)]
fn read_write(rest: Option<&[u8]>, room: &mut Room) -> Result<LoggedCall, LineFault>
    ensures call { read_in result room.new ≡ write_of (parts_left 32 (option_copied rest.entry)) }
    ensures told { IfOk result (λ call. IsToldIn call room.new) }
{
    let (sector, bytes, ok) = three_words(rest)?;
    let sector = sector_of(sector)?;
    bytes_into(SECTOR, bytes, &mut room.sector)?;
    let ok = ok_of(ok)?;
    Ok(LoggedCall {
        asked: Asked::Write { sector },
        given: Given::done(ok),
    })
}

/// `send R HEX ok` or `send R HEX failed`
#[tactic(auto, unfolding(crate::specs::Reading::send_of))]
#[inline(never)]
fn read_send(rest: Option<&[u8]>, room: &mut Room) -> Result<LoggedCall, LineFault>
    ensures call { read_in result room.new ≡ send_of (parts_left 32 (option_copied rest.entry)) }
    ensures told { IfOk result (λ call. IsToldIn call room.new) }
{
    let (rank, bytes, ok) = three_words(rest)?;
    let rank = number_between(0, 32, rank)?;
    sent_into(bytes, &mut room.sent)?;
    let ok = ok_of(ok)?;
    Ok(LoggedCall {
        asked: Asked::Send {
            to: Rank(rank as u8),
        },
        given: Given::done(ok),
    })
}

/// `halt C`
#[tactic(auto, unfolding(crate::specs::Reading::halt_of))]
#[inline(never)]
fn read_halt(rest: Option<&[u8]>) -> Result<LoggedCall, LineFault>
    ensures call { (room : Room)
        → read_in result room ≡ halt_of (parts_left 32 (option_copied rest.entry)) }
    ensures told { (room : Room) → IfOk result (λ call. IsToldIn call room) }
{
    let word = one_word(rest)?;
    let code = number_between(0, 255, word)?;
    Ok(LoggedCall {
        asked: Asked::Halt { code: code as u8 },
        given: Given::done(true),
    })
}

/// `feed`, `start`, `stop` or `disarm`, and then `ok` or `failed`
#[tactic(auto, unfolding(crate::specs::Reading::device_of))]
#[inline(never)]
fn read_device(device: DeviceCall, rest: Option<&[u8]>) -> Result<LoggedCall, LineFault>
    ensures call { (room : Room)
        → read_in result room ≡ device_of device (parts_left 32 (option_copied rest.entry)) }
    ensures told { (room : Room) → IfOk result (λ call. IsToldIn call room) }
{
    let word = one_word(rest)?;
    let ok = ok_of(word)?;
    Ok(device.with(ok))
}

/// The number of a sector.
fn sector_of(word: &[u8]) -> Result<u32, LineFault>
    ensures { result ≡ sector_of word.now }
{
    let sector = number_between(0, 4_294_967_295, word)?;
    Ok(sector as u32)
}

#[tactic(auto, unfolding(crate::specs::Reading::ok_of))]
fn ok_of(word: &[u8]) -> Result<bool, LineFault>
    ensures { result ≡ ok_of word.now }
{
    if is_word(word, b"ok") {
        Ok(true)
    } else if is_word(word, b"failed") {
        Ok(false)
    } else {
        Err(LineFault::UnknownWord)
    }
}

/// Whether the call looks at the clock, as each turn does once.
pub(crate) fn looks_at_clock(call: LoggedCall) -> bool
    ensures { (room : Room) → result ≡ is_now (call_in call room) }
{
    matches!(call.asked, Asked::Now)
}
