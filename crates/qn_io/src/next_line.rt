//! Reads the next line of an input, and leaves it where it stands.
ghost use Rattle.std.specs.Prelude.{◌≡◌, ◌≤◌, ◌<◌, drop, length};
ghost use Rattle.std.specs.Io.KnownBytes.{prepend_known};
ghost use Rattle.qn_io.specs.Lines.{HasNoLineFeed, IsDrainedLine, OnFailedLine, ReadsLine};
ghost use Rattle.qn_io.specs.NextLines.{own_count, read_of, text_of};
ghost use Rattle.qn_io.specs.Outside.{HasRisen};

use crate::buffered::{LINE, PIECE, Pieces};
use crate::lines::{LineRead, read_line};
use crate::outside::Source;
use arrayvec::ArrayVec;

/// Where the next line of an input stands.
#[derive(Clone, Copy, PartialEq, Eq)]
pub enum NextLine {
    /// The first so many bytes that wait in the pieces, where its `\n` follows them.
    Waits(usize),
    /// In the buffer that it was read into, and how its reading ended.
    Copied(LineRead),
}

/// Reads the next line of the input: into `line` only where it does not wait whole. Before the next call its own bytes
/// are to be passed over, by [`Pieces::pass_over`].
pub fn read_next<I: Source>(
    pieces: &mut Pieces,
    input: &mut I,
    line: &mut ArrayVec<u8, LINE>,
) -> NextLine
    ensures reads { ReadsLine (read_of result) (text_of result pieces.new line.new.items)
        (prepend_known pieces.old (I.left input.old))
        (prepend_known (drop (own_count result) pieces.new) (I.left input.new)) }
    ensures unended { HasNoLineFeed (text_of result pieces.new line.new.items) }
    ensures short { length (text_of result pieces.new line.new.items) ≤ LINE }
    ensures waits { own_count result ≤ length pieces.new }
    ensures drained { IsDrainedLine (read_of result) pieces.new }
    ensures within { length pieces.new ≤ PIECE }
    ensures never_falls { I.faults input.old ≤ I.faults input.new }
    ensures cause { OnFailedLine (read_of result)
        (HasRisen (I.faults input.old) (I.faults input.new)) }
{
    match pieces.first_line() {
        Some(count) => NextLine::Waits(count),
        None => {
            let read = read_line(pieces, input, line);
            prove!(line.len() <= LINE);
            NextLine::Copied(read)
        }
    }
}

impl NextLine {
    /// How the reading of the line ended.
    pub fn read(self) -> LineRead
        ensures { result ≡ read_of self }
    {
        match self {
            NextLine::Waits(_) => LineRead::Line,
            NextLine::Copied(read) => read,
        }
    }

    /// The bytes of the line, by the pieces and the buffer that it was read with.
    pub fn text<'a>(self, pieces: &'a Pieces, line: &'a ArrayVec<u8, LINE>) -> &'a [u8]
        requires { own_count self ≤ length pieces.now }
        ensures { result.now ≡ text_of self pieces.entry.now line.entry.now.items }
    {
        match self {
            NextLine::Waits(count) => pieces.front(count),
            NextLine::Copied(_) => line.as_slice(),
        }
    }

    /// How many of the bytes that wait in the pieces are its own, with its `\n`.
    pub fn own_count(self) -> usize
        requires { own_count self ≤ PIECE }
        ensures { result ≡ own_count self }
    {
        match self {
            NextLine::Waits(count) => count + 1,
            NextLine::Copied(_) => 0,
        }
    }
}
