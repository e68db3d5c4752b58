//! Judges the lines of a log, up to their end or to the first that is no next call.
ghost use Rattle.std.specs.Prelude.{◌≡◌, ◌≤◌, ◌<◌, ◌^◌, [], length};
ghost use Rattle.std.specs.Io.KnownBytes.{IsAtEnd, prepend_known};
ghost use Rattle.qn_base.specs.Plans.{Plan};
ghost use Rattle.qn_io.specs.Outside.{HasRisen};
ghost use Rattle.qn_live.specs.Running.{Ran};
ghost use Rattle.qn_audit.specs.Auditing.{IsJudging, LogEnds, StandsFor, at_first};
ghost use Rattle.qn_audit.specs.Deciding.{Stops};

use crate::audit_end::AuditEnd;
use crate::auditor::Auditor;
use crate::log_place::LogPlace;
use arrayvec::ArrayVec;
use qn_io::{PIECE, Pieces, Source, read_next};
use qn_live::Room;

/// Judges the lines of an input after its head, which had so many lines: reads on after these pieces. The end is the one
/// that the bytes that were taken tell of, and no byte is taken that it does not need. No memory is taken, and no line
/// is kept.
pub fn audit_log<I: Source>(
    auditor: &mut Auditor,
    head: u64,
    pieces: &mut Pieces,
    input: &mut I,
) -> AuditEnd
    requires judging { IsJudging auditor.old }
    requires numbered { head < 2 ^ 63 }
    ensures ends { (plan : Plan Ran) → StandsFor auditor.old plan → Stops
        (LogEnds (at_first plan head))
        (prepend_known pieces.old (I.left input.old)) (prepend_known pieces.new (I.left input.new))
        ((pieces.new ≡ []) × IsAtEnd (I.left input.new))
        ((pieces.new ≡ []) × HasRisen (I.faults input.old) (I.faults input.new)) result }
    ensures within { length pieces.new ≤ PIECE }
    ensures never_falls { I.faults input.old ≤ I.faults input.new }
{
    let mut line = ArrayVec::new();
    let mut room = Room::new();
    let mut place = LogPlace::new(head);
    'lines: loop {
        let next = read_next(pieces, input, &mut line);
        let judged = place.judge(auditor, next.read(), next.text(pieces, &line), &mut room);
        pieces.pass_over(next.own_count());
        if let Err(end) = judged {
            return end;
        }
    }
}
