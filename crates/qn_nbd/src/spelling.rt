//! Bytes of a request, put one after the other.
ghost use Rattle.std.specs.Prelude.{◌≡◌, ◌≤◌, ◌+◌, ◌++◌, length};
ghost use Rattle.std.specs.Int.{bytes_high_first};
ghost use Rattle.arrayvec.specs.ArrayVec.{array_vec_len};

use arrayvec::ArrayVec;
use byteorder::{BigEndian, ByteOrder};

/// Puts bytes at the end.
pub(crate) fn add<const N: usize>(spelling: &mut ArrayVec<u8, N>, bytes: &[u8])
    requires { array_vec_len spelling.old + length bytes.now ≤ N }
    ensures { spelling.new.items ≡ spelling.old.items ++ bytes.now }
{
    let _ = spelling.try_extend_from_slice(bytes);
}

/// Puts four bytes of a number at the end, the highest first.
pub(crate) fn add_u32<const N: usize>(spelling: &mut ArrayVec<u8, N>, number: u32)
    requires { array_vec_len spelling.old + 4 ≤ N }
    ensures { spelling.new.items ≡ spelling.old.items ++ bytes_high_first 4 number }
{
    let mut field = [0; 4];
    BigEndian::write_u32(&mut field, number);
    add(spelling, &field);
}

/// Puts eight bytes of a number at the end, the highest first.
pub(crate) fn add_u64<const N: usize>(spelling: &mut ArrayVec<u8, N>, number: u64)
    requires { array_vec_len spelling.old + 8 ≤ N }
    ensures { spelling.new.items ≡ spelling.old.items ++ bytes_high_first 8 number }
{
    let mut field = [0; 8];
    BigEndian::write_u64(&mut field, number);
    add(spelling, &field);
}
