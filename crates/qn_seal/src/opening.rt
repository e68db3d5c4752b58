//! Reads sealed packets.
ghost use Rattle.std.specs.Prelude.{◌≡◌, ◌≤◌, ◌<◌, ◌^◌, ◌-◌, drop, take, IfSome, IfNone, ℕ, List, option_map, length, if◌then◌else◌, Some, None, ◌&&◌, nat_le};
ghost use Rattle.qn_seal.specs.declared.seals.Seal.{Seal};
ghost use Rattle.qn_seal.specs.Seals.{IsSeal, Spells};
ghost use Rattle.qn_seal.specs.Opening.{opened, seal_at};

use crate::keys::Key;
use crate::mac::TAG;
use crate::seals::{HEAD, MOST_BYTES, Seal, put_sealed};
use arrayvec::ArrayVec;
use byteorder::{BigEndian, ByteOrder};

/// How many bytes a sealed packet has at least.
const LEAST_BYTES: usize = 58;

/// The seal and the packet in it, where that key sealed these bytes beside that text.
pub fn open<'a>(key: &Key, text: &[u8; 32], from: &'a [u8]) -> Option<(Seal, &'a [u8])>
    ensures some { IfSome result (λ parts.
        Spells key.now text.now from.now parts.0 parts.1.now) }
    ensures none { IfNone result ((seal : Seal) (inner : List ℕ) → IsSeal seal
        → Spells key.now text.now from.now seal inner → ⊥) }
    ensures gives { option_map (λ parts. (parts.0, parts.1.now)) result
        ≡ opened key.now text.now from.now }
{
    read_sealed(key, text, from)
}

/// The same, the fields read from their places and the packet spelled anew.
#[tactic(auto, unfolding(crate::specs::Opening::opened))]
fn read_sealed<'a>(key: &Key, text: &[u8; 32], from: &'a [u8]) -> Option<(Seal, &'a [u8])>
    ensures { option_map (λ parts. (parts.0, parts.1.now)) result
        ≡ opened key.now text.now from.now }
{
    if from.len() < LEAST_BYTES || from.len() > MOST_BYTES {
        return None;
    }
    let (before, _) = from.split_at(from.len() - TAG);
    let inner = before.split_at(HEAD).1;
    let seal = read_seal(from);
    let mut spelled = ArrayVec::new();
    put_sealed(key, text, &seal, inner, &mut spelled);
    if spelled.as_slice() == from {
        Some((seal, inner))
    } else {
        None
    }
}

/// The fields of the head.
fn read_seal(from: &[u8]) -> Seal
    requires { 58 ≤ length from.now }
    ensures { result ≡ seal_at from.now }
{
    Seal {
        from: from[4],
        to: from[5],
        boot: BigEndian::read_u64(from.split_at(6).1),
        number: BigEndian::read_u64(from.split_at(14).1),
    }
}
