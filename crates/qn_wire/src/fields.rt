//! The bytes of a packet while it is put together, field by field.
ghost use Rattle.std.specs.Prelude.{◌≡◌, ◌+◌, ◌≤◌, ◌++◌, cond};
ghost use Rattle.arrayvec.specs.ArrayVec.{array_vec_len};
ghost use Rattle.qn_wire.specs.Packets.{announce_bytes, announce_kind, follows_byte, has_name, head_bytes, said_bytes, view_bytes};

use crate::kinds::{ANNOUNCE, NAMED};
use arrayvec::ArrayVec;
use qn_base::{Rank, Said, View, add, add_u32, add_u64};

/// The bytes of a packet that is being put together.
pub type Spelling = ArrayVec<u8, 128>;

/// Empties the bytes, and begins a packet of that kind.
pub fn begin(spelling: &mut Spelling, kind: u8)
    ensures { spelling.new.items ≡ head_bytes kind }
{
    spelling.clear();
    add(spelling, b"QN");
    add(spelling, &[kind]);
}

pub fn add_view(spelling: &mut Spelling, view: View)
    requires { array_vec_len spelling.old + 12 ≤ 128 }
    ensures { spelling.new.items ≡ spelling.old.items ++ view_bytes view }
{
    add_u64(spelling, view.id);
    add_u32(spelling, view.members.0);
}

/// Whether the number of a view names a rank, or says that none of its members may start.
pub fn has_name(view: View) -> bool
    ensures { result ≡ has_name view }
{
    let name = view.id >> 56;
    0 < name && name < 33 || view.is_barred()
}

/// The kind in which a view is announced.
pub fn announce_kind(view: View) -> u8
    ensures { result ≡ announce_kind view }
{
    if has_name(view) { NAMED } else { ANNOUNCE }
}

/// Empties the bytes, and puts an announcement of that kind together.
pub fn put_announce(spelling: &mut Spelling, kind: u8, from: Rank, view: View)
    ensures { spelling.new.items ≡ announce_bytes kind from view }
{
    begin(spelling, kind);
    add(spelling, &[from.0]);
    add_view(spelling, view);
}

pub fn add_said(spelling: &mut Spelling, said: Said)
    requires { array_vec_len spelling.old + 6 ≤ 128 }
    ensures { spelling.new.items ≡ spelling.old.items ++ said_bytes said }
{
    add_u32(spelling, said.hears.0);
    add(
        spelling,
        &[follows_byte(said.follows), able_byte(said.able)],
    );
}

fn able_byte(able: bool) -> u8
    ensures { result ≡ cond able 1 0 }
{
    u8::from(able)
}

fn follows_byte(follows: Option<Rank>) -> u8
    ensures { result ≡ follows_byte follows }
{
    match follows {
        Some(rank) => rank.0,
        None => 32,
    }
}
