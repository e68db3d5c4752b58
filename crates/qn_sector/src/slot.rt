//! A slot, written and read.
ghost use Rattle.std.specs.Prelude.{◌≡◌, ◌≤◌, ◌<◌, ◌^◌, ℕ, IfSome, IfNone};
ghost use Rattle.qn_model.specs.Sectors.{slot_bytes};
ghost use Rattle.qn_model.specs.declared.disk.Slot.{Slot};
ghost use Rattle.qn_base.specs.declared.ids.NodeId.{NodeId};
ghost use Rattle.qn_sector.specs.Reading.{slot_of, SpellsSlot};

use crate::fields::{self, Sector};
use byteorder::{BigEndian, ByteOrder};
use qn_base::{NodeId, add, add_u32, add_u64};
use qn_model::Slot;

/// Writes the slot of the node with that id, over all 512 bytes.
#[tactic(auto, unfolding(qn_model::specs::Sectors::slot_bytes))]
pub fn put_slot(id: NodeId, slot: &Slot, into: &mut [u8; 512])
    requires { 1 ≤ id.0 }
    ensures { into.new ≡ slot_bytes id.0 slot.now }
{
    let mut sector = Sector::new();
    add(&mut sector, b"SLOT");
    add_u32(&mut sector, id.0);
    add_u64(&mut sector, slot.incarnation);
    add(&mut sector, &[u8::from(slot.clean)]);
    fields::add_zeros(&mut sector, 495);
    into.copy_from_slice(&sector);
}

/// The node's id and the slot that the 512 bytes spell.
pub fn get_slot(from: &[u8; 512]) -> Option<(NodeId, Slot)>
    ensures some { IfSome result (λ s. SpellsSlot from.now s.0 s.1) }
    ensures none { IfNone result ((id : NodeId) (slot : Slot) → SpellsSlot from.now id slot → ⊥) }
    ensures gives { result ≡ slot_of from.now }
{
    read_slot(from)
}

#[tactic(auto, unfolding(crate::specs::Reading::slot_of))]
fn read_slot(from: &[u8; 512]) -> Option<(NodeId, Slot)>
    ensures gives { result ≡ slot_of from.now }
    ensures fits { IfSome result (λ s. (s.0.0 < 2 ^ 32) × (s.1.incarnation < 2 ^ 64)) }
{
    let id = BigEndian::read_u32(from.split_at(4).1);
    let slot = Slot {
        incarnation: BigEndian::read_u64(from.split_at(8).1),
        clean: from[16] == 1,
    };
    if id == 0 {
        return None;
    }
    let mut spelled = [0; 512];
    put_slot(NodeId(id), &slot, &mut spelled);
    if spelled.as_slice() == from.as_slice() {
        Some((NodeId(id), slot))
    } else {
        None
    }
}
