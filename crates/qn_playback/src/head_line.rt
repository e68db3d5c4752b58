//! Reads one more line of a head.
ghost use Rattle.std.specs.Prelude.{◌≡◌, ◌≤◌, ◌<◌, ◌+◌, ◌^◌, [], length, OnOk, IfErr};
ghost use Rattle.std.specs.Io.KnownBytes.{IsAtEnd, prepend_known};
ghost use Rattle.qn_io.specs.Outside.{HasRisen};
ghost use Rattle.qn_playback.specs.Faults.{IsHeadEnd};
ghost use Rattle.qn_playback.specs.Heads.{line_part};
ghost use Rattle.qn_playback.specs.Parts.{Gives, Refuses};

use arrayvec::ArrayVec;
use qn_io::{LINE, LineRead, PIECE, Pieces, Source, read_line};
use qn_model::LineFault;
use qn_sched::ReplayEnd;

/// Reads the line after the first `before` lines of an input, and puts it, without its end, in place of `line`. What
/// that is after an `Err` is not said. The end is `BadSchedule` with `Unended` or `TooLong`, or `ReadFault`.
pub fn read_head_line<I: Source>(
    pieces: &mut Pieces,
    input: &mut I,
    before: u64,
    line: &mut ArrayVec<u8, LINE>,
) -> Result<(), ReplayEnd>
    requires { before < 2 ^ 32 }
    ensures line { OnOk result (Gives (line_part before) line.new.items
        (prepend_known pieces.old (I.left input.old))
        (prepend_known pieces.new (I.left input.new))) }
    ensures end { IfErr result (Refuses (line_part before)
        (prepend_known pieces.old (I.left input.old)) (prepend_known pieces.new (I.left input.new))
        ((pieces.new ≡ []) × IsAtEnd (I.left input.new))
        ((pieces.new ≡ []) × HasRisen (I.faults input.old) (I.faults input.new))) }
    ensures head_end { IfErr result IsHeadEnd }
    ensures within { length pieces.new ≤ PIECE }
    ensures never_falls { I.faults input.old ≤ I.faults input.new }
{
    let read = read_line(pieces, input, line);
    prove!(line.len() <= LINE);
    match read {
        LineRead::Line => Ok(()),
        LineRead::Rest => Err(bad_line(before + 1, LineFault::Unended)),
        LineRead::TooLong => Err(bad_line(before + 1, LineFault::TooLong)),
        LineRead::Failed => Err(ReplayEnd::ReadFault),
    }
}

fn bad_line(line: u64, fault: LineFault) -> ReplayEnd
    ensures { result ≡ ReplayEnd.BadSchedule line fault }
{
    ReplayEnd::BadSchedule { line, fault }
}
