//! The packet with which a node tells the others how it is.
ghost use Rattle.std.specs.Prelude.{◌≡◌, ◌≤◌, length};
ghost use Rattle.arrayvec.specs.ArrayVec.{array_vec_len};
ghost use Rattle.qn_shown.specs.Telling.{flags_of, is_telling, told_at, told_bytes, told_of};

use crate::group::Group;
use crate::shown::Told;
use arrayvec::ArrayVec;
use byteorder::{BigEndian, ByteOrder};
use qn_base::{Rank, add, add_u64};

/// The kind of the packet.
const KIND: u8 = 9;

/// How many bytes it has.
const BYTES: usize = 22;

/// The bytes of such a packet while it is put together.
pub type Spelling = ArrayVec<u8, 128>;

/// Empties `into`, and writes what the node of that rank tells. What is not well formed has a spelling too, which [`get_told`] does not read.
#[tactic(auto, unfolding(crate::specs::Telling::told_bytes))]
pub fn put_told(from: Rank, told: Told, into: &mut Spelling)
    ensures spelling { into.new.items ≡ told_bytes from told }
    ensures length { array_vec_len into.new ≡ 22 }
{
    into.clear();
    add(into, b"QN");
    add(into, &[KIND, from.0, flags_of(told), told.group.number()]);
    add_u64(into, told.incarnation);
    add_u64(into, told.held_ms);
}

/// 1 it holds, 2 it is quorate, 4 it leaves.
fn flags_of(told: Told) -> u8
    ensures { result ≡ flags_of told }
{
    u8::from(told.holds) + u8::from(told.quorate) * 2 + u8::from(told.leaving) * 4
}

/// Who told what by these bytes: a rank below 32, flags below 8, a group of which there is one, and no time where it does not hold.
#[tactic(auto, unfolding(crate::specs::Telling::told_of))]
pub fn get_told(from: &[u8]) -> Option<(Rank, Told)>
    ensures { result ≡ told_of from.now }
{
    if from.len() != BYTES {
        return None;
    }
    let group = Group::of_number(u64::from(from[5]))?;
    let teller = Rank(from[3]);
    let told = told_at(from, group);
    if !is_telling(teller, told) {
        return None;
    }
    let mut spelled = ArrayVec::new();
    put_told(teller, told, &mut spelled);
    if spelled.as_slice() == from {
        Some((teller, told))
    } else {
        None
    }
}

/// The fields of what was told, with that group.
fn told_at(from: &[u8], group: Group) -> Told
    requires { 22 ≤ length from.now }
    ensures { result ≡ told_at from.now group }
{
    let flags = from[4];
    Told {
        group,
        held_ms: BigEndian::read_u64(from.split_at(14).1),
        holds: flags % 2 == 1,
        incarnation: BigEndian::read_u64(from.split_at(6).1),
        leaving: flags / 4 == 1,
        quorate: flags / 2 % 2 == 1,
    }
}

/// Whether the rank is one, and only who holds has held for a time.
fn is_telling(from: Rank, told: Told) -> bool
    ensures { result ≡ is_telling from told }
{
    from.0 < 32 && (told.holds || told.held_ms == 0)
}
