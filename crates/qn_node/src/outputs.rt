//! Lists of outputs: adds one where a test holds.
ghost use Rattle.std.specs.Prelude.{◌≡◌, ◌+◌, ◌<◌, ◌≤◌, ◌++◌, length};
ghost use Rattle.qn_model.specs.NodeOutputs.{disk_outs, when};

use qn_model::{DiskOp, Out, Outs};

/// Adds an output where the test holds.
pub fn push_if(outs: &mut Outs, test: bool, out: Out)
    requires { length outs.old < 40 }
    ensures value { outs.new ≡ outs.old ++ when test out }
    ensures fits { length outs.new ≤ length outs.old + 1 }
{
    if test {
        outs.push(out);
    }
}

/// Adds a disk operation, where there is one.
pub fn push_op(outs: &mut Outs, op: Option<DiskOp>)
    requires { length outs.old < 40 }
    ensures value { outs.new ≡ outs.old ++ disk_outs op }
    ensures fits { length outs.new ≤ length outs.old + 1 }
{
    if let Some(op) = op {
        outs.push(Out::Disk(op));
    }
}
