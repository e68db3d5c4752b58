//! The bytes of one read, handed out up to the ends of lines.
ghost use Rattle.std.specs.Prelude.{◌≡◌, ℕ, ◌+◌, ◌++◌, ◌<◌, ◌≤◌, ◌↔◌, List, [], ◌∷◌, Option, IsTrue, length, take, drop, slice_index};
ghost use Rattle.arrayvec.specs.ArrayVec.{array_vec_len};
ghost use Rattle.std.specs.Io.KnownBytes.{prepend_known};
ghost use Rattle.qn_io.specs.Outside.{HasRisen};
ghost use Rattle.qn_io.specs.Lines.{HasNoLineFeed};

use crate::outside::Source;
use arrayvec::ArrayVec;
use memchr::memchr;
use std::marker::Model;

/// The most bytes that one read of a source is asked for.
pub const PIECE: usize = 4096;

/// The most bytes of a line, its `\n` left out.
pub const LINE: usize = 4096;

/// Bytes that were read from a source and not yet handed out, of one piece.
#[derive(Drop)]
pub struct Pieces {
    buffer: [u8; PIECE],
    from: usize,
    to: usize,
}

impl Model for Pieces {
    ghost Value = { List ℕ };

    ghost view = { λ p. drop p.from (take p.to p.buffer) };

    ghost invariant = { λ p. (p.from ≤ p.to) × (p.to ≤ 4096) };
}

/// What one call of [`Pieces::next`] found.
#[derive(Clone, Copy, PartialEq, Eq)]
pub enum Next {
    /// The next byte of the input.
    Byte(u8),
    /// The input has ended.
    End,
    /// A read failed.
    Failed,
}

/// What was moved to the end of a line.
pub(crate) enum Moved {
    /// The bytes up to the `\n`, which was taken too.
    Line,
    /// As many as the line has room for, and a further byte that is not `\n` was taken too.
    TooLong,
    /// All, and there was no `\n`.
    All,
}

/// How a read of the next piece ended.
pub(crate) enum Refill {
    Bytes,
    End,
    Failed,
}

impl Pieces {
    ghost use Rattle.std.specs.Prelude.{IfNone, IfSome};
    ghost use Rattle.qn_io.specs.Lines.{HasNoLineFeed, Moves};
    ghost use Rattle.qn_io.specs.Reads.{Gives, IsDrained, OnFailed, OnFailedRefill, Refills};

    /// Pieces of an input of which nothing was read yet.
    pub fn new() -> Pieces
        ensures { result ≡ [] }
    {
        Pieces {
            buffer: [0; PIECE],
            from: 0,
            to: 0,
        }
    }

    /// The next byte of the input, after a read of the source where no byte is left of the last piece.
    pub fn next<I: Source>(&mut self, source: &mut I) -> Next
        ensures gives { Gives result (prepend_known self.old (I.left source.old))
            (prepend_known self.new (I.left source.new)) }
        ensures drained { IsDrained result self.new }
        ensures within { length self.new ≤ PIECE }
        ensures never_falls { I.faults source.old ≤ I.faults source.new }
        ensures cause { OnFailed result (HasRisen (I.faults source.old) (I.faults source.new)) }
    {
        if self.is_empty() {
            match self.refill(source) {
                Refill::Bytes => {}
                Refill::End => return Next::End,
                Refill::Failed => return Next::Failed,
            }
        }
        Next::Byte(self.take_first())
    }

    /// Whether no byte waits that was read and not yet handed out, so that a read comes next.
    pub fn is_empty(&self) -> bool
        ensures { IsTrue result ↔ (length self.now ≡ 0) }
    {
        self.from == self.to
    }

    /// How many bytes the first line has that waits whole, without its `\n`, or none.
    pub fn first_line(&self) -> Option<usize>
        ensures inside { IfSome result (λ count. count < length self.now) }
        ensures line { IfSome result
            (λ count. self.now ≡ take count self.now ++ 10 ∷ drop (count + 1) self.now) }
        ensures unended { IfSome result (λ count. HasNoLineFeed (take count self.now)) }
        ensures none { IfNone result (HasNoLineFeed self.now) }
        ensures within { length self.now ≤ PIECE }
    {
        let waiting = self.waiting();
        let count = length_before_end(waiting);
        if count < waiting.len() {
            Some(count)
        } else {
            None
        }
    }

    /// The first bytes that wait, so many of them.
    pub(crate) fn front(&self, count: usize) -> &[u8]
        requires { count ≤ length self.now }
        ensures { result.now ≡ take count self.now }
    {
        self.waiting().split_at(count).0
    }

    /// Passes over so many of the bytes that wait.
    pub fn pass_over(&mut self, count: usize)
        requires { count ≤ length self.old }
        ensures { self.new ≡ drop count self.old }
    {
        self.from += count;
    }

    /// Reads the next piece, where no byte is left of the last one.
    pub(crate) fn refill<I: Source>(&mut self, source: &mut I) -> Refill
        requires { length self.old ≡ 0 }
        ensures reads { Refills result self.new (I.left source.old) (I.left source.new) }
        ensures within { length self.new ≤ PIECE }
        ensures never_falls { I.faults source.old ≤ I.faults source.new }
        ensures cause { OnFailedRefill result
            (HasRisen (I.faults source.old) (I.faults source.new)) }
    {
        self.from = 0;
        self.to = 0;
        match source.read(&mut self.buffer) {
            Ok(0) => Refill::End,
            Ok(count) => {
                self.to = count;
                Refill::Bytes
            }
            Err(_) => Refill::Failed,
        }
    }

    /// The first byte that was not handed out yet, which then is.
    fn take_first(&mut self) -> u8
        requires { 0 < length self.old }
        ensures takes { self.old ≡ result ∷ self.new }
        ensures within { length self.new ≤ PIECE }
    {
        let byte = self.buffer[self.from];
        self.from += 1;
        byte
    }

    /// Moves the bytes that wait up to the end of the line to the end of `line`.
    pub(crate) fn move_line(&mut self, line: &mut ArrayVec<u8, LINE>) -> Moved
        requires { 0 < length self.old }
        ensures moves { Moves result line.old.items self.old line.new.items self.new }
        ensures unended { HasNoLineFeed line.old.items → HasNoLineFeed line.new.items }
        ensures within { length self.new ≤ PIECE }
        ensures fits { array_vec_len line.new ≤ 4096 }
    {
        let waiting = self.waiting();
        let count = length_before_end(waiting);
        let has_end = count < waiting.len();
        let room = line.remaining_capacity();
        if room < count {
            self.move_front(room, line);
            self.take_first();
            return Moved::TooLong;
        }
        self.move_front(count, line);
        if has_end {
            self.take_first();
            return Moved::Line;
        }
        Moved::All
    }

    /// The bytes that were read and not yet handed out.
    fn waiting(&self) -> &[u8]
        ensures value { result.now ≡ self.now }
        ensures fits { length result.now ≤ 4096 }
    {
        self.buffer.split_at(self.to).0.split_at(self.from).1
    }

    /// Moves that many of the bytes that wait to the end of `line`.
    fn move_front(&mut self, count: usize, line: &mut ArrayVec<u8, LINE>)
        requires waiting { count ≤ length self.old }
        requires room { array_vec_len line.old + count ≤ 4096 }
        ensures line { line.new.items ≡ line.old.items ++ take count self.old }
        ensures left { self.new ≡ drop count self.old }
    {
        let _ = line.try_extend_from_slice(self.waiting().split_at(count).0);
        self.from += count;
    }
}

/// The number of bytes before the first `\n`, or of all where there is none.
fn length_before_end(bytes: &[u8]) -> usize
    ensures within { result ≤ length bytes.now }
    ensures before { HasNoLineFeed (take result bytes.now) }
    ensures end { result < length bytes.now → slice_index bytes.now result ≡ 10 }
{
    memchr(b'\n', bytes).unwrap_or(bytes.len())
}
