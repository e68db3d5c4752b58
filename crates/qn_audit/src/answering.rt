//! Whether a call of a log is the one that a run asks for.
ghost use Rattle.std.specs.Prelude.{◌≡◌, ◌↔◌, IsTrue};
ghost use Rattle.qn_live.specs.Asking.{question_of};

use qn_live::{Asked, Room};

/// Whether what is asked is what is wanted, with their bytes in these rooms.
pub(crate) fn is_wanted(asked: Asked, room: &Room, wanted: Asked, wanted_room: &Room) -> bool
    ensures { IsTrue result ↔ (question_of asked room.now ≡ question_of wanted wanted_room.now) }
{
    is_same_call(asked, wanted) && has_same_bytes(wanted, room, wanted_room)
}

/// Whether two calls are the same, but for their bytes.
fn is_same_call(asked: Asked, wanted: Asked) -> bool
    ensures { IsTrue result ↔ (asked ≡ wanted) }
{
    match wanted {
        Asked::Receive => matches!(asked, Asked::Receive),
        Asked::Now => matches!(asked, Asked::Now),
        Asked::Read { sector } => matches!(asked, Asked::Read { sector: other } if other == sector),
        Asked::Write { sector } => {
            matches!(asked, Asked::Write { sector: other } if other == sector)
        }
        Asked::Feed => matches!(asked, Asked::Feed),
        Asked::Start => matches!(asked, Asked::Start),
        Asked::Stop => matches!(asked, Asked::Stop),
        Asked::Send { to } => matches!(asked, Asked::Send { to: other } if other.0 == to.0),
        Asked::Disarm => matches!(asked, Asked::Disarm),
        Asked::Halt { code } => matches!(asked, Asked::Halt { code: other } if other == code),
    }
}

/// Whether a call has the same bytes in both rooms.
fn has_same_bytes(call: Asked, room: &Room, other_room: &Room) -> bool
    ensures { IsTrue result ↔ (question_of call room.now ≡ question_of call other_room.now) }
{
    match call {
        Asked::Write { .. } => room.sector.as_slice() == other_room.sector.as_slice(),
        Asked::Send { .. } => room.sent.as_slice() == other_room.sent.as_slice(),
        Asked::Receive
        | Asked::Now
        | Asked::Read { .. }
        | Asked::Feed
        | Asked::Start
        | Asked::Stop
        | Asked::Disarm
        | Asked::Halt { .. } => true,
    }
}
