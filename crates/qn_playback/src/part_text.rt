//! The settings text of a schedule while it is read, up to the line of dashes.
use qn_conf::MOST_TEXT_BYTES;
use std::alloc::{AllocError, Global};
use std::marker::Model;

/// The line after the settings text.
const DASHES: &[u8; 4] = b"----";

/// What the next byte made of a settings text.
pub(crate) enum Taken {
    /// The text goes on.
    More,
    /// The byte ended the line `----`, and the text before it is whole.
    Whole,
    /// More bytes were read than a settings text may have.
    TooLong,
    /// Out of memory.
    NoMemory,
}

/// A settings text while it is read: its whole lines, and then what there is of the next line.
#[derive(Drop)]
pub(crate) struct PartText {
    bytes: Vec<u8>,
    line_start: usize,
    lines: u64,
}

impl Model for PartText {
    ghost use Rattle.std.specs.Prelude.{◌≤◌, length, take, drop};
    ghost use Rattle.qn_playback.specs.Texts.{TextSoFar};

    ghost Value = { TextSoFar };

    ghost view = { λ t. record {
      whole = take t.line_start t.bytes.items;
      lines = t.lines;
      rest = drop t.line_start t.bytes.items;
    } };

    ghost invariant = { λ t. t.line_start ≤ length t.bytes.items };
}

impl PartText {
    ghost use Rattle.std.specs.Prelude.{◌≡◌, ◌+◌, ◌^◌, ◌<◌, ◌==◌, false, OnOk};
    ghost use Rattle.qn_playback.specs.Texts.{MayGoOn, Progresses, Takes, no_text, with_byte, with_end};
    ghost use Rattle.qn_playback.specs.Heads.{counted_bytes};

    /// The empty text.
    pub(crate) fn new(alloc: Global) -> Self
        ensures { result ≡ no_text }
    {
        PartText {
            bytes: Vec::new(alloc),
            line_start: 0,
            lines: 0,
        }
    }

    /// The whole lines.
    pub(crate) fn whole(&self) -> &[u8]
        ensures { result.now ≡ self.now.whole }
    {
        self.bytes.as_slice().split_at(self.line_start).0
    }

    /// The number of the next line, from 1.
    pub(crate) fn next_line(&self) -> u64
        requires { self.now.lines < 2 ^ 32 }
        ensures { result ≡ self.now.lines + 1 }
    {
        self.lines + 1
    }

    /// Takes the next byte of the input.
    pub(crate) fn take(&mut self, byte: u8) -> Taken
        requires { MayGoOn self.old }
        ensures { Takes result byte self.old self.new }
    {
        if byte == b'\n' {
            self.take_end()
        } else {
            self.take_inside(byte)
        }
    }

    /// Takes the end of a line.
    fn take_end(&mut self) -> Taken
        requires { MayGoOn self.old }
        ensures { Takes result 10 self.old self.new }
    {
        if self.rest() == DASHES.as_slice() {
            return Taken::Whole;
        }
        let Ok(()) = self.end_line() else {
            return Taken::NoMemory;
        };
        self.progress()
    }

    /// Takes a byte inside a line.
    fn take_inside(&mut self, byte: u8) -> Taken
        requires may_go_on { MayGoOn self.old }
        requires inside { (byte == 10) ≡ false }
        ensures { Takes result byte self.old self.new }
    {
        let Ok(()) = self.push(byte) else {
            return Taken::NoMemory;
        };
        self.progress()
    }

    fn push(&mut self, byte: u8) -> Result<(), AllocError>
        ensures { OnOk result (self.new ≡ with_byte self.old byte) }
    {
        self.bytes.push(byte)?;
        Ok(())
    }

    fn end_line(&mut self) -> Result<(), AllocError>
        requires { self.old.lines < 2 ^ 32 }
        ensures { OnOk result (self.new ≡ with_end self.old) }
    {
        self.bytes.push(b'\n')?;
        self.line_start = self.bytes.len();
        self.lines += 1;
        Ok(())
    }

    /// Whether the text goes on.
    fn progress(&self) -> Taken
        ensures { Progresses result self.now }
    {
        if self.counted_bytes() > MOST_TEXT_BYTES {
            Taken::TooLong
        } else {
            Taken::More
        }
    }

    /// The bytes of the text, without a next line that may become `----`.
    fn counted_bytes(&self) -> usize
        ensures { result ≡ counted_bytes self.now.whole self.now.rest }
    {
        if DASHES.as_slice().starts_with(self.rest()) {
            self.line_start
        } else {
            self.bytes.len()
        }
    }

    /// What there is of the next line.
    fn rest(&self) -> &[u8]
        ensures { result.now ≡ self.now.rest }
    {
        self.bytes.as_slice().split_at(self.line_start).1
    }
}
