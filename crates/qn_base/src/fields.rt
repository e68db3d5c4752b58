//! The fields of a layout of bytes, one after the other: numbers, high byte first.
ghost use Rattle.std.specs.Prelude.{◌≡◌, ◌≤◌, ◌+◌, ◌++◌, length};
ghost use Rattle.std.specs.Int.{bytes_high_first};

use crate::text::add;
use arrayvec::ArrayVec;
use byteorder::{BigEndian, ByteOrder};

/// Adds two bytes of a number, high byte first, at the end of a list that has room for them.
pub fn add_u16<const N: usize>(into: &mut ArrayVec<u8, N>, number: u16)
    requires { length into.old.items + 2 ≤ N }
    ensures { into.new.items ≡ into.old.items ++ bytes_high_first 2 number }
{
    let mut field = [0; 2];
    BigEndian::write_u16(&mut field, number);
    add(into, &field);
}

/// Adds four bytes of a number, high byte first, at the end of a list that has room for them.
pub fn add_u32<const N: usize>(into: &mut ArrayVec<u8, N>, number: u32)
    requires { length into.old.items + 4 ≤ N }
    ensures { into.new.items ≡ into.old.items ++ bytes_high_first 4 number }
{
    let mut field = [0; 4];
    BigEndian::write_u32(&mut field, number);
    add(into, &field);
}

/// Adds eight bytes of a number, high byte first, at the end of a list that has room for them.
pub fn add_u64<const N: usize>(into: &mut ArrayVec<u8, N>, number: u64)
    requires { length into.old.items + 8 ≤ N }
    ensures { into.new.items ≡ into.old.items ++ bytes_high_first 8 number }
{
    let mut field = [0; 8];
    BigEndian::write_u64(&mut field, number);
    add(into, &field);
}
