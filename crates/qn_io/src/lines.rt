//! Reads the next line of an input.
ghost use Rattle.std.specs.Prelude.{◌≡◌, ℕ, ◌≤◌, length};
ghost use Rattle.std.specs.Io.KnownBytes.{prepend_known};
ghost use Rattle.qn_io.specs.Lines.{HasNoLineFeed, IsDrainedLine, OnFailedLine, ReadsLine};
ghost use Rattle.qn_io.specs.Outside.{HasRisen};

use crate::buffered::{LINE, Moved, PIECE, Pieces, Refill};
use crate::outside::Source;
use arrayvec::ArrayVec;

/// How the reading of a line ended.
#[derive(Clone, Copy, PartialEq, Eq)]
pub enum LineRead {
    /// A whole line was read, and its `\n`, which is left out.
    Line,
    /// The input has ended after these bytes, which no `\n` follows.
    Rest,
    /// The line has these 4096 bytes and at least one more.
    TooLong,
    /// A read failed after these bytes.
    Failed,
}

/// Empties `line` and reads the next line of the input into it.
pub fn read_line<I: Source>(
    pieces: &mut Pieces,
    input: &mut I,
    line: &mut ArrayVec<u8, LINE>,
) -> LineRead
    ensures reads { ReadsLine result line.new.items (prepend_known pieces.old (I.left input.old))
        (prepend_known pieces.new (I.left input.new)) }
    ensures unended { HasNoLineFeed line.new.items }
    ensures drained { IsDrainedLine result pieces.new }
    ensures within { length pieces.new ≤ PIECE }
    ensures never_falls { I.faults input.old ≤ I.faults input.new }
    ensures cause { OnFailedLine result (HasRisen (I.faults input.old) (I.faults input.new)) }
{
    line.clear();
    'line: loop {
        if pieces.is_empty() {
            match pieces.refill(input) {
                Refill::Bytes => {}
                Refill::End => return LineRead::Rest,
                Refill::Failed => return LineRead::Failed,
            }
        }
        match pieces.move_line(line) {
            Moved::Line => return LineRead::Line,
            Moved::TooLong => return LineRead::TooLong,
            Moved::All => {}
        }
    }
}
