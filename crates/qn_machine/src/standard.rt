//! Standard input and standard output as an input and an output that count faults.
ghost use Rattle.std.specs.Prelude.{◌<◌, ◌≤◌, IfOk, length};
ghost use Rattle.std.specs.Io.KnownBytes.{ReadConsumes, WriteAppends};

use crate::reported::reported;
use qn_base::Failed;
use qn_exchange::{read_again, write_again};
use qn_io::{Sink, Source};
use std::io::{Read, Write};
use std::marker::Model;

/// A source over a real reader, which is standard input. It is seen as what its reader tells that it has left, and
/// as its count of faults; as a `Source` it tells nothing. Of each call that failed a line on standard error says
/// why.
#[derive(Drop)]
pub struct StdSource<R: Read + Drop, E: Eprint + Drop> {
    reader: R,
    errors: E,
    faults: u64,
}

impl<R: Read + Drop, E: Eprint + Drop> Model for StdSource<R, E> {
    ghost use Rattle.qn_machine.specs.Streams.{RealInput};

    ghost Value = { RealInput };

    ghost view = { λ s. record { left = R.remaining s.reader; faults = s.faults } };
}

impl<R: Read + Drop, E: Eprint + Drop> StdSource<R, E> {
    ghost use Rattle.std.specs.Prelude.{◌≡◌};

    /// A source that reads from this reader, which no fault has met yet, and says on these errors why a
    /// call failed.
    pub fn new(reader: R, errors: E) -> StdSource<R, E>
        ensures { result ≡ record { left = R.remaining reader; faults = 0 } }
    {
        StdSource {
            reader,
            errors,
            faults: 0,
        }
    }
}

impl<R: Read + Drop, E: Eprint + Drop> Source for StdSource<R, E> {
    ghost use Rattle.std.specs.Prelude.{None, OnErr};
    ghost use Rattle.qn_io.specs.Outside.{HasRisen};

    ghost faults = { λ s. s.faults };

    ghost left = { λ _. None };

    /// Reads once. A call that was interrupted is made again, up to 1000 times. Of a reader that tells what it has
    /// left, it gives the first bytes; for a buffer that is not empty, 0 is its end; and `Failed` takes nothing.
    fn read(&mut self, into: &mut [u8]) -> Result<usize, Failed>
        ensures within { IfOk result (λ n. n ≤ length into.new) }
        ensures consumes { ReadConsumes self.old.left self.new.left result into.new }
        ensures never_falls { self.old.faults ≤ self.new.faults }
        ensures cause { OnErr result (HasRisen self.old.faults self.new.faults) }
    {
        let moved = read_again(&mut self.reader, into);
        let done = reported(&self.errors, "standard input", moved);
        if done.is_err() {
            self.faults = self.faults.saturating_add(1);
        }
        done
    }
}

/// A sink over a real writer, which is standard output. It is seen as what its writer tells that it holds, and as
/// its count of faults; as a `Sink` it tells nothing. Of each call that failed a line on standard error says why.
#[derive(Drop)]
pub struct StdSink<W: Write + Drop, E: Eprint + Drop> {
    writer: W,
    errors: E,
    faults: u64,
}

impl<W: Write + Drop, E: Eprint + Drop> Model for StdSink<W, E> {
    ghost use Rattle.qn_machine.specs.Streams.{RealOutput};

    ghost Value = { RealOutput };

    ghost view = { λ s. record { contents = W.contents s.writer; faults = s.faults } };
}

impl<W: Write + Drop, E: Eprint + Drop> StdSink<W, E> {
    ghost use Rattle.std.specs.Prelude.{◌≡◌};

    /// A sink that writes to this writer, which no fault has met yet, and says on these errors why a call
    /// failed.
    pub fn new(writer: W, errors: E) -> StdSink<W, E>
        ensures { result ≡ record { contents = W.contents writer; faults = 0 } }
    {
        StdSink {
            writer,
            errors,
            faults: 0,
        }
    }
}

impl<W: Write + Drop, E: Eprint + Drop> Sink for StdSink<W, E> {
    ghost use Rattle.std.specs.Prelude.{None, OnErr};
    ghost use Rattle.qn_io.specs.Outside.{HasRisen};

    ghost faults = { λ s. s.faults };

    ghost written = { λ _. None };

    /// Writes once. A call that was interrupted is made again, up to 1000 times; one that takes nothing
    /// of a piece that is not empty has failed. What a writer that tells it holds grows by what was taken, and by
    /// nothing at `Failed`.
    fn write(&mut self, from: &[u8]) -> Result<usize, Failed>
        ensures within { IfOk result (λ n. n ≤ length from.now) }
        ensures some { IfOk result (λ n. 0 < length from.now → 0 < n) }
        ensures appends { WriteAppends self.old.contents self.new.contents result from.now }
        ensures never_falls { self.old.faults ≤ self.new.faults }
        ensures cause { OnErr result (HasRisen self.old.faults self.new.faults) }
    {
        let moved = write_again(&mut self.writer, from);
        let done = reported(&self.errors, "standard output", moved);
        if done.is_err() {
            self.faults = self.faults.saturating_add(1);
        }
        done
    }
}
