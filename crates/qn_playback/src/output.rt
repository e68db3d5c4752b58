//! Text that waits to be written, so that many lines make one write.
ghost use Rattle.std.specs.Prelude.{◌≡◌, ◌≤◌, ◌+◌, ◌++◌, [], List, ℕ, length, decimal, OnOk, OnErr};
ghost use Rattle.std.specs.Io.KnownBytes.{append_known};
ghost use Rattle.qn_io.specs.Outside.{HasRisen};
ghost use Rattle.qn_io.specs.Writes.{AppendsFront};
ghost use Rattle.qn_playback.specs.Writing.{GivesOut};

use arrayvec::ArrayVec;
use qn_base::{Failed, add, add_number};
use qn_io::{Sink, put_all};
use std::marker::Model;

/// How many bytes may wait. They stand in fixed memory, so `count` takes none.
pub const MOST_WAITING: usize = 8_192;

/// Text that was given out and waits to be written, so that many lines make one write.
#[derive(Drop)]
pub struct Output {
    waiting: ArrayVec<u8, MOST_WAITING>,
}

impl Model for Output {
    ghost use Rattle.std.specs.Prelude.{List, ℕ};

    ghost Value = { List ℕ };

    ghost view = { λ o. o.waiting.items };
}

impl Output {
    /// Nothing waits.
    pub fn new() -> Self
        ensures { result ≡ [] }
    {
        Output {
            waiting: ArrayVec::new(),
        }
    }

    /// Gives out a text: it waits after what waits already, of which all is written where the text would
    /// not fit. At `Failed` a prefix of both was written.
    pub fn put<O: Sink>(&mut self, out: &mut O, text: &[u8]) -> Result<(), Failed>
        ensures given { OnOk result (GivesOut (O.written out.old) (O.written out.new)
            self.new (self.old ++ text.now)) }
        ensures prefix { OnErr result (AppendsFront (O.written out.old) (O.written out.new)
            (self.old ++ text.now)) }
        ensures never_falls { O.faults out.old ≤ O.faults out.new }
        ensures cause { OnErr result (HasRisen (O.faults out.old) (O.faults out.new)) }
    {
        if text.len() <= self.room() {
            let _ = self.waiting.try_extend_from_slice(text);
            return Ok(());
        }
        self.flush(out)?;
        put_all(out, text)
    }

    /// Makes room for 256 further bytes: writes all that waits where there is less. At `Failed` a prefix of
    /// it was written.
    pub fn make_room<O: Sink>(&mut self, out: &mut O) -> Result<(), Failed>
        ensures given { OnOk result (GivesOut (O.written out.old) (O.written out.new)
            self.new self.old) }
        ensures room { OnOk result (length self.new + 256 ≤ MOST_WAITING) }
        ensures prefix { OnErr result
            (AppendsFront (O.written out.old) (O.written out.new) self.old) }
        ensures never_falls { O.faults out.old ≤ O.faults out.new }
        ensures cause { OnErr result (HasRisen (O.faults out.old) (O.faults out.new)) }
    {
        if self.room() >= 256 {
            return Ok(());
        }
        self.flush(out)
    }

    /// Gives out a text, which waits after what waits already.
    pub fn add(&mut self, text: &[u8])
        requires { length self.old + length text.now ≤ MOST_WAITING }
        ensures text { self.new ≡ self.old ++ text.now }
        ensures len { length self.new ≡ length self.old + length text.now }
    {
        add(&mut self.waiting, text);
    }

    /// Gives out a number, in decimal digits, which wait after what waits already.
    pub fn add_number(&mut self, number: u64)
        requires { length self.old + 20 ≤ MOST_WAITING }
        ensures text { self.new ≡ self.old ++ decimal number }
        ensures len { length self.new ≤ length self.old + 20 }
    {
        add_number(&mut self.waiting, number);
    }

    /// How many further bytes may wait.
    fn room(&self) -> usize
        ensures { result + length self.now ≡ MOST_WAITING }
    {
        self.waiting.remaining_capacity()
    }

    /// Writes all that waits. At `Failed` a prefix of it was written.
    pub fn flush<O: Sink>(&mut self, out: &mut O) -> Result<(), Failed>
        ensures whole { OnOk result
            (O.written out.new ≡ append_known (O.written out.old) self.old) }
        ensures empty { OnOk result (self.new ≡ []) }
        ensures prefix { OnErr result
            (AppendsFront (O.written out.old) (O.written out.new) self.old) }
        ensures never_falls { O.faults out.old ≤ O.faults out.new }
        ensures cause { OnErr result (HasRisen (O.faults out.old) (O.faults out.new)) }
    {
        put_all(out, self.waiting.as_slice())?;
        self.waiting.clear();
        Ok(())
    }
}
