//! The laws of creations, whole and stopped, and of the faults of an image.
ghost use Rattle.std.specs.Prelude.{◌≡◌, ◌≢◌, ◌≤◌, ◌<◌, ◌↔◌, ℕ, List, [], ◌∷◌, length, take, slice_get, Result, Ok, Err, None, Some, true, false};
ghost use Rattle.qn_base.specs.declared.calls.Call.{Call};
ghost use Rattle.qn_base.specs.declared.calls.Call.TheVariants.{Read};
ghost use Rattle.qn_base.specs.declared.ids.NodeId.{NodeId};
ghost use Rattle.qn_base.specs.Plans.{Follows};
ghost use Rattle.qn_model.specs.declared.disk.Message.{Message};
ghost use Rattle.qn_model.specs.declared.disk.Message.TheVariants.{Empty};
ghost use Rattle.qn_model.specs.declared.disk.Slot.{Slot};
ghost use Rattle.qn_model.specs.declared.nodelist.NodeEntry.{NodeEntry};
ghost use Rattle.qn_model.specs.declared.times.Timing.{Timing};
ghost use Rattle.qn_model.specs.Sectors.{anonymous, slot_place, mail_place, mail_place_1, header_bytes, slot_bytes, mail_bytes};
ghost use Rattle.qn_model.specs.Timing.{is_safe};
ghost use Rattle.qn_sector.specs.Reading.{slot_of};
ghost use Rattle.qn_image.specs.declared.fault.ImageFault.{ImageFault};
ghost use Rattle.qn_image.specs.declared.fault.ImageFault.TheVariants.{NotImage, UnsafeTiming, DeadlyThere, DamagedSector, UnknownNode};
ghost use Rattle.qn_image.specs.Causes.{FoundDamaged, FoundDeadly, FoundNoMailbox, FoundNone};
ghost use Rattle.qn_image.specs.Migration.{IsImage, migrate_plan, migrate_writes};
ghost use Rattle.qn_image.specs.Plans.{header_plan, line_plan, message_plan, send_plan};
ghost use Rattle.qn_image.specs.Versions.{any_header_of, mailbox_of, mailbox_place};
ghost use Rattle.qn_image.specs.Writes.{IsTried, create_plan, create_writes, fresh_slot, written};

use qn_sector::{law_read_back, law_read_header_1};

/// Law: with safe times the calls of a creation are its writes, in order, up to the first that fails,
/// and no other; with times that are not safe it makes no call.
pub fn law_creation_writes()
    ensures safe { (nodes : List NodeEntry) (timing : Timing) (calls : List Call)
        (result : Result (Unit {0}) ImageFault)
        → Follows (create_plan nodes timing) calls result → is_safe timing ≡ true
        → IsTried (create_writes nodes timing) calls result }
    ensures unsafe_timing { (nodes : List NodeEntry) (timing : Timing) (calls : List Call)
        (result : Result (Unit {0}) ImageFault)
        → Follows (create_plan nodes timing) calls result → is_safe timing ≡ false
        → (calls ≡ []) × (result ≡ Err UnsafeTiming) }
{}

/// Law: stopped after any write but the last, a creation leaves no image.
pub fn law_stopped_creation()
    ensures { (nodes : List NodeEntry) (timing : Timing) (image : ℕ → List ℕ) (done : ℕ)
        → 1 ≤ done → done < length (create_writes nodes timing)
        → any_header_of (written (take done (create_writes nodes timing)) image 0) ≡ None }
{}

/// Law: after the last write of a creation the image has the header, the slot of a node that was never
/// started and an empty mailbox for each rank, and every other sector is as it was.
pub fn law_created_image()
    ensures header { (nodes : List NodeEntry) (timing : Timing) (image : ℕ → List ℕ)
        → written (create_writes nodes timing) image 0 ≡ header_bytes (length nodes) timing }
    ensures slots { (nodes : List NodeEntry) (timing : Timing) (image : ℕ → List ℕ) (rank : ℕ)
        (node : NodeEntry)
        → length nodes ≤ 32 → slice_get nodes rank ≡ Some node
        → written (create_writes nodes timing) image (slot_place rank)
        ≡ slot_bytes node.id.0 fresh_slot }
    ensures mailboxes { (nodes : List NodeEntry) (timing : Timing) (image : ℕ → List ℕ) (rank : ℕ)
        → length nodes ≤ 32 → rank < length nodes
        → written (create_writes nodes timing) image (mail_place rank)
        ≡ mail_bytes (anonymous Empty) }
    ensures others { (nodes : List NodeEntry) (timing : Timing) (image : ℕ → List ℕ) (sector : ℕ)
        → sector ≢ 0
        → ((rank : ℕ) → rank < length nodes
        → (sector ≢ slot_place rank) × (sector ≢ mail_place rank))
        → written (create_writes nodes timing) image sector ≡ image sector }
{}

/// Law: each fault of an image has its cause in what was read, and comes wherever that was read.
pub fn law_image_faults()
    ensures not_image { (bytes : List ℕ)
        → Follows header_plan (Read 0 bytes true ∷ []) (Err NotImage)
        ↔ (any_header_of bytes ≡ None) }
    ensures damaged_slot { (version rank : ℕ) (bytes : List ℕ)
        → Follows (line_plan version rank) (Read (slot_place rank) bytes true ∷ [])
        (Err (DamagedSector (slot_place rank)))
        ↔ (slot_of bytes ≡ None) }
    ensures damaged_mailbox { (version rank : ℕ) (slot mail : List ℕ) (found : NodeId × Slot)
        → slot_of slot ≡ Some found
        → Follows (line_plan version rank)
        (Read (slot_place rank) slot true ∷ Read (mailbox_place version rank) mail true ∷ [])
        (Err (DamagedSector (mailbox_place version rank)))
        ↔ (mailbox_of version mail ≡ None) }
    ensures unknown_node { (id : NodeId) (message : Message) (calls : List Call)
        → Follows (message_plan id message) calls (Err UnknownNode) ↔ FoundNone id calls }
{}

/// Law: a message that reached its mailbox ends without a write exactly where the mailbox was read before it, and held
/// a deadly message or was none.
pub fn law_kept_messages()
    ensures deadly_there { (rank : ℕ) (message held : Message) (calls : List Call)
        → Follows (send_plan rank message) calls (Err (DeadlyThere held))
        ↔ FoundDeadly rank message held calls }
    ensures no_mailbox { (rank : ℕ) (message : Message) (calls : List Call)
        → Follows (send_plan rank message) calls (Err (DamagedSector (mail_place rank)))
        ↔ FoundNoMailbox rank message calls }
{}

/// Law: on an image of version 2 a migration reads the header alone; on one of version 1 it ends with a sector that is
/// no mailbox exactly where it read one, after the mailboxes of the lower ranks and before any write.
pub fn law_migration()
    ensures version_2 { (header : List ℕ) (nodes : ℕ) (timing : Timing) (calls : List Call)
        (result : Result ℕ ImageFault)
        → Follows migrate_plan (Read 0 header true ∷ calls) result
        → any_header_of header ≡ Some (2, nodes, timing)
        → (calls ≡ []) × (result ≡ Ok nodes) }
    ensures damaged { (rank : ℕ) (calls : List Call)
        → Follows migrate_plan calls (Err (DamagedSector (mail_place_1 rank)))
        ↔ FoundDamaged rank calls }
{}

/// Law: stopped after any number of its writes, a migration leaves an image of version 1 with the same messages or,
/// after its last write, one of version 2 with them; the slots stay as they are.
pub fn law_stopped_migration()
    ensures before_the_last { (nodes : ℕ) (timing : Timing) (messages : List Message)
        (image : ℕ → List ℕ) (done : ℕ)
        → IsImage 1 nodes timing messages image → done ≤ nodes
        → IsImage 1 nodes timing messages
        (λ s. written (take done (migrate_writes nodes timing messages)) image s) }
    ensures after_the_last { (nodes : ℕ) (timing : Timing) (messages : List Message)
        (image : ℕ → List ℕ)
        → IsImage 1 nodes timing messages image
        → IsImage 2 nodes timing messages
        (λ s. written (migrate_writes nodes timing messages) image s) }
    ensures slots { (nodes : ℕ) (timing : Timing) (messages : List Message) (image : ℕ → List ℕ)
        (done rank : ℕ)
        → rank < 32
        → written (take done (migrate_writes nodes timing messages)) image (slot_place rank)
        ≡ image (slot_place rank) }
{
    law_read_back();
    law_read_header_1();
}
