//! A word and a number after it.
ghost use Rattle.std.specs.Prelude.{◌≡◌, ◌≤◌, ◌+◌, ◌++◌, length, decimal};

use arrayvec::ArrayVec;
use qn_base::{add, add_number};

/// Adds a word and a number.
pub fn add_numbered<const N: usize>(into: &mut ArrayVec<u8, N>, word: &[u8], number: u64)
    requires { length into.old.items + (length word.now + 20) ≤ N }
    ensures text { into.new.items ≡ into.old.items ++ (word.now ++ decimal number) }
    ensures len { length into.new.items ≤ length into.old.items + length word.now + 20 }
{
    add(into, word);
    add_number(into, number);
}
