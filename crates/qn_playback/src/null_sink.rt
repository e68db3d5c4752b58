//! An output that takes all bytes and keeps none.
use qn_base::Failed;
use qn_io::Sink;

/// A sink that takes all bytes and keeps none. It tells nothing and never fails.
#[derive(Clone, Copy)]
pub struct NullSink;

impl Sink for NullSink {
    ghost use Rattle.std.specs.Prelude.{None};

    ghost faults = { λ _. 0 };

    ghost written = { λ _. None };

    fn write(&mut self, from: &[u8]) -> Result<usize, Failed> {
        Ok(from.len())
    }
}
