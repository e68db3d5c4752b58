//! The traits of an input and an output: bytes that come and go, and faults that are counted.
ghost use Rattle.std.specs.Prelude.{◌≡◌, ℕ, ◌<◌, ◌≤◌, List, Option, length, take, IfOk, OnErr};
ghost use Rattle.std.specs.Io.KnownBytes.{prepend_known, append_known, IsAtEnd};
ghost use Rattle.qn_io.specs.Outside.{HasRisen};

use qn_base::Failed;

/// Where bytes come from.
///
/// `faults` is the number of failures so far, which never falls and stops at the greatest u64. `left`
/// is the bytes that are still to come, of a source that tells them.
pub trait Source {
    ghost faults: { Self → ℕ };

    ghost left: { Self → Option (List ℕ) };

    /// Reads the next bytes into the beginning of `into` and gives their number. For a buffer that is not
    /// empty, 0 is the end of the input. `Failed` comes only where the count of faults rose, and takes
    /// no bytes.
    fn read(&mut self, into: &mut [u8]) -> Result<usize, Failed>
        ensures within { IfOk result (λ n. n ≤ length into.new) }
        ensures takes { IfOk result
            (λ n. left self.old ≡ prepend_known (take n into.new) (left self.new)) }
        ensures end { IfOk result (λ n. n ≡ 0 → 0 < length into.new → IsAtEnd (left self.old)) }
        ensures kept { OnErr result (left self.new ≡ left self.old) }
        ensures never_falls { faults self.old ≤ faults self.new }
        ensures cause { OnErr result (HasRisen (faults self.old) (faults self.new)) };
}

/// Where bytes go.
///
/// `faults` is the number of failures so far, which never falls and stops at the greatest u64.
/// `written` is the bytes that were written so far, of a sink that tells them.
pub trait Sink {
    ghost faults: { Self → ℕ };

    ghost written: { Self → Option (List ℕ) };

    /// Writes bytes from the beginning of `from` and gives their number: at least 1 where `from` is not
    /// empty. `Failed` comes only where the count of faults rose, and writes nothing.
    fn write(&mut self, from: &[u8]) -> Result<usize, Failed>
        ensures within { IfOk result (λ n. n ≤ length from.now) }
        ensures some { IfOk result (λ n. 0 < length from.now → 0 < n) }
        ensures gives { IfOk result
            (λ n. written self.new ≡ append_known (written self.old) (take n from.now)) }
        ensures kept { OnErr result (written self.new ≡ written self.old) }
        ensures never_falls { faults self.old ≤ faults self.new }
        ensures cause { OnErr result (HasRisen (faults self.old) (faults self.new)) };
}
