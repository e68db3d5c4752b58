//! Writes all of some bytes, in as many writes as the output needs.
ghost use Rattle.std.specs.Prelude.{◌≡◌, ℕ, ◌≤◌, OnOk, OnErr};
ghost use Rattle.std.specs.Io.KnownBytes.{append_known};
ghost use Rattle.qn_io.specs.Outside.{HasRisen};
ghost use Rattle.qn_io.specs.Writes.{AppendsFront};

use crate::outside::Sink;
use qn_base::Failed;

/// Writes the whole of `from`, in as many writes as the sink needs. At `Failed` a prefix of it was
/// written.
pub fn put_all<O: Sink>(out: &mut O, from: &[u8]) -> Result<(), Failed>
    ensures whole { OnOk result (O.written out.new ≡ append_known (O.written out.old) from.now) }
    ensures front { OnErr result (AppendsFront (O.written out.old) (O.written out.new) from.now) }
    ensures never_falls { O.faults out.old ≤ O.faults out.new }
    ensures cause { OnErr result (HasRisen (O.faults out.old) (O.faults out.new)) }
{
    let mut rest = from;
    'writes: while !rest.is_empty() {
        let count = out.write(rest)?;
        rest = rest.split_at(count).1;
    }
    Ok(())
}
