//! Writes sealed packets.
ghost use Rattle.std.specs.Prelude.{◌≡◌, ◌≤◌, ◌+◌, ◌++◌, length};
ghost use Rattle.std.specs.Int.{bytes_high_first};
ghost use Rattle.arrayvec.specs.ArrayVec.{array_vec_len};
ghost use Rattle.qn_seal.specs.Seals.{head_bytes, sealed};

use crate::keys::Key;
use crate::mac::tag_of_two;
use arrayvec::ArrayVec;
use byteorder::{BigEndian, ByteOrder};

/// What the head of a sealed packet says: the ranks of its sender and its receiver; the boot of the sender, which is its system time in
/// milliseconds when it opened its port; and the number of the packet in that boot, from 1.
#[derive(Clone, Copy, PartialEq, Eq)]
pub struct Seal {
    pub from: u8,
    pub to: u8,
    pub boot: u64,
    pub number: u64,
}

/// How many bytes the head of a sealed packet has.
pub(crate) const HEAD: usize = 22;

/// The kind of a sealed packet, which no packet of version 1 has.
const SEALED: u8 = 32;

/// How many bytes a sealed packet has at most.
pub(crate) const MOST_BYTES: usize = 128;

/// How many bytes the packet in a seal has at most.
pub const INNER: usize = 74;

type Spelling = ArrayVec<u8, MOST_BYTES>;

fn add(spelling: &mut Spelling, bytes: &[u8])
    requires { array_vec_len spelling.old + length bytes.now ≤ 128 }
    ensures { spelling.new.items ≡ spelling.old.items ++ bytes.now }
{
    let _ = spelling.try_extend_from_slice(bytes);
}

fn add_u64(spelling: &mut Spelling, number: u64)
    requires { array_vec_len spelling.old + 8 ≤ 128 }
    ensures { spelling.new.items ≡ spelling.old.items ++ bytes_high_first 8 number }
{
    let mut field = [0; 8];
    BigEndian::write_u64(&mut field, number);
    add(spelling, &field);
}

#[tactic(auto, unfolding(crate::specs::Seals::head_bytes))]
fn add_head(spelling: &mut Spelling, number: u8, seal: &Seal)
    ensures value { spelling.new.items ≡ head_bytes number seal.now }
    ensures length { array_vec_len spelling.new ≡ 22 }
{
    spelling.clear();
    add(spelling, b"QN");
    add(spelling, &[SEALED, number, seal.from, seal.to]);
    add_u64(spelling, seal.boot);
    add_u64(spelling, seal.number);
}

/// Empties `into` and writes the packet `inner`, sealed under that key beside that text.
pub fn put_sealed(
    key: &Key,
    text: &[u8; 32],
    seal: &Seal,
    inner: &[u8],
    into: &mut ArrayVec<u8, MOST_BYTES>,
)
    requires { length inner.now ≤ 74 }
    ensures spelling { into.new.items ≡ sealed key.now text.now seal.now inner.now }
    ensures length { array_vec_len into.new ≡ length inner.now + 54 }
{
    add_head(into, key.number, seal);
    add(into, inner);
    let tag = tag_of_two(&key.secret, text, into.as_slice());
    add(into, &tag);
}
