//! The last line that a command wrote: where it is a fault, an operator is told what can be done.
ghost use Rattle.std.specs.Prelude.{◌≡◌};

use arrayvec::ArrayVec;
use qn_base::Failed;
use qn_io::Sink;

/// How many bytes of the end are kept: more than the line of any fault has.
const MOST: usize = 256;

/// What the line of a fault begins with.
const FAULT: &str = "fault ";

/// A sink that writes to another one, and keeps the last bytes of what that took last.
#[derive(Drop)]
pub struct LastLine<S: Sink + Drop> {
    sink: S,
    end: ArrayVec<u8, MOST>,
}

impl<S: Sink + Drop> LastLine<S> {
    /// A sink over this one, to which nothing was written.
    pub fn new(sink: S) -> LastLine<S> {
        LastLine {
            sink,
            end: ArrayVec::new(),
        }
    }

    /// The fault that the last line says, without the word itself; empty where it says none.
    pub fn fault(&self) -> &str {
        let text = str::from_utf8(self.end.as_slice()).unwrap_or("");
        let last = text.lines().last().unwrap_or("");
        last.strip_prefix(FAULT).unwrap_or("")
    }

    /// Keeps the end of these bytes.
    fn keep(&mut self, bytes: &[u8])
        ensures { self.new.sink ≡ self.old.sink }
    {
        let before = bytes.len().saturating_sub(MOST);
        let (_, end) = bytes.split_at(before);
        self.end.clear();
        let _ = self.end.try_extend_from_slice(end);
    }
}

impl<S: Sink + Drop> Sink for LastLine<S> {
    ghost use Rattle.std.specs.Prelude.{◌≡◌, ◌<◌, ◌≤◌, IfOk, OnErr, length, take};
    ghost use Rattle.std.specs.Io.KnownBytes.{append_known};
    ghost use Rattle.qn_io.specs.Outside.{HasRisen};

    ghost faults = { λ s. S.faults s.sink };

    ghost written = { λ s. S.written s.sink };

    fn write(&mut self, from: &[u8]) -> Result<usize, Failed>
        ensures within { IfOk result (λ n. n ≤ length from.now) }
        ensures some { IfOk result (λ n. 0 < length from.now → 0 < n) }
        ensures gives { IfOk result (λ n. S.written self.new.sink
            ≡ append_known (S.written self.old.sink) (take n from.now)) }
        ensures kept { OnErr result (S.written self.new.sink ≡ S.written self.old.sink) }
        ensures never_falls { S.faults self.old.sink ≤ S.faults self.new.sink }
        ensures cause { OnErr result (HasRisen (S.faults self.old.sink) (S.faults self.new.sink)) }
    {
        let count = self.sink.write(from)?;
        let (taken, _) = from.split_at(count);
        self.keep(taken);
        Ok(count)
    }
}
