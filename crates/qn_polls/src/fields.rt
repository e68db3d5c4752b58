//! The bytes of a poll or a reply while it is put together, field by field.
ghost use Rattle.std.specs.Prelude.{◌≡◌, ◌+◌, ◌≤◌, ◌++◌};
ghost use Rattle.arrayvec.specs.ArrayVec.{array_vec_len};
ghost use Rattle.qn_wire.specs.Packets.{head_bytes, view_bytes};
ghost use Rattle.qn_polls.specs.Polls.{numbers_bytes};

use arrayvec::ArrayVec;
use qn_base::{View, add, add_u32, add_u64};

/// The bytes that are being put together.
pub type Spelling = ArrayVec<u8, 128>;

/// Empties the bytes, and begins one of that kind.
pub fn begin(spelling: &mut Spelling, kind: u8)
    ensures { spelling.new.items ≡ head_bytes kind }
{
    spelling.clear();
    add(spelling, b"QN");
    add(spelling, &[kind]);
}

pub fn add_numbers(spelling: &mut Spelling, number: u64, incarnation: u64, install: u64)
    requires { array_vec_len spelling.old + 24 ≤ 128 }
    ensures { spelling.new.items ≡ spelling.old.items ++ numbers_bytes number incarnation install }
{
    add_u64(spelling, number);
    add_u64(spelling, incarnation);
    add_u64(spelling, install);
}

pub fn add_view(spelling: &mut Spelling, view: View)
    requires { array_vec_len spelling.old + 12 ≤ 128 }
    ensures { spelling.new.items ≡ spelling.old.items ++ view_bytes view }
{
    add_u64(spelling, view.id);
    add_u32(spelling, view.members.0);
}
