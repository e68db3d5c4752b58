//! The event of a call that was answered.
ghost use Rattle.std.specs.Prelude.{◌≡◌};
ghost use Rattle.qn_notice.specs.Answers.{answered};

use crate::kinds::Event;
use qn_live::{Asked, Given};

/// The event of a call and its answer, where there is one: of a start, a stop and a disarm.
pub fn answered(asked: Asked, given: Given) -> Option<Event>
    ensures { result ≡ answered asked given }
{
    match asked {
        Asked::Start => Some(Event::StartAnswered { ok: given.ok }),
        Asked::Stop => Some(Event::StopAnswered { ok: given.ok }),
        Asked::Disarm => Some(Event::DisarmAnswered { ok: given.ok }),
        Asked::Receive
        | Asked::Now
        | Asked::Read { .. }
        | Asked::Write { .. }
        | Asked::Feed
        | Asked::Send { .. }
        | Asked::Halt { .. } => None,
    }
}
