//! Stops that fail one after the other: the first is told, and how many they were once one succeeds.
ghost use Rattle.std.specs.Prelude.{◌≡◌};
ghost use Rattle.qn_told.specs.Stops.{is_over};

/// How many loops lie at most between a stop that failed and the next one, where they are one after the other.
const LOOPS: u64 = 3;

/// The stops that a node asked for.
#[derive(Clone, Copy, Default)]
pub struct Stops {
    /// How many failed one after the other.
    failed: u64,
    /// The tick at which the node was handed the answer of the last of them.
    tick: u64,
}

impl Stops {
    ghost use Rattle.std.specs.Prelude.{◌≡◌, ◌==◌};
    ghost use Rattle.qn_told.specs.Stops.{after_asking, after_taking, count_told};

    /// A stop is asked for at that tick: whether that is told. It is where none failed before it, one after the other.
    pub fn ask(&mut self, tick: u64, loop_ms: u64) -> bool
        ensures told { result ≡ (self.new.failed == 0) }
        ensures after { self.new ≡ after_asking self.old tick loop_ms }
    {
        if is_over(self.tick, tick, loop_ms) {
            self.failed = 0;
        }
        self.failed == 0
    }

    /// A stop was answered: how many failed before it, one after the other, where that is told. It is of one that succeeded, and of the
    /// first that fails.
    pub fn answer(&self, ok: bool) -> Option<u64>
        ensures { result ≡ count_told self.now ok }
    {
        (ok || self.failed == 0).then_some(self.failed)
    }

    /// The node was handed at that tick whether its stop succeeded.
    pub fn take(&mut self, ok: bool, tick: u64)
        ensures { self.new ≡ after_taking self.old ok tick }
    {
        if ok {
            self.failed = 0;
        } else {
            self.failed = self.failed.saturating_add(1);
            self.tick = tick;
        }
    }
}

/// Whether a stop at a tick does not follow one that failed, whose answer came at another one.
fn is_over(failed: u64, tick: u64, loop_ms: u64) -> bool
    ensures { result ≡ is_over failed tick loop_ms }
{
    tick.saturating_sub(failed) > loop_ms.saturating_mul(LOOPS)
}
