//! The law that what was put is read back.
ghost use Rattle.std.specs.Prelude.{◌≡◌, ◌≤◌, ◌<◌, ◌^◌, ℕ, List, Some, IfSome, IsTrue};
ghost use Rattle.qn_base.specs.declared.ids.NodeId.{NodeId};
ghost use Rattle.qn_model.specs.declared.disk.Message.{Message};
ghost use Rattle.qn_model.specs.declared.disk.Slot.{Slot};
ghost use Rattle.qn_model.specs.declared.mailbox.Mail.{Mail};
ghost use Rattle.qn_model.specs.declared.times.Timing.{Timing};
ghost use Rattle.qn_model.specs.Sectors.{IsSender, header_bytes, header_bytes_1, slot_bytes, mail_bytes, mail_bytes_1};
ghost use Rattle.qn_model.specs.Timing.{has_periods};
ghost use Rattle.qn_sector.specs.Reading.{header_of, header_of_1, slot_of, mail_of, mail_of_1, SpellsHeader};

/// Law: what was put is read back, and so is what spells a header or a mailbox of version 1.
pub fn law_read_back()
    ensures header { (nodes : ℕ) (timing : Timing) → 1 ≤ nodes → nodes ≤ 32
        → IsTrue (has_periods timing)
        → header_of (header_bytes nodes timing) ≡ Some (nodes, timing) }
    ensures header_1 { (nodes : ℕ) (timing : Timing) → 1 ≤ nodes → nodes ≤ 32
        → IsTrue (has_periods timing)
        → header_of_1 (header_bytes_1 nodes timing) ≡ Some (nodes, timing) }
    ensures slot { (id : NodeId) (slot : Slot) → 1 ≤ id.0 → id.0 < 2 ^ 32
        → slot.incarnation < 2 ^ 64
        → slot_of (slot_bytes id.0 slot) ≡ Some (id, slot) }
    ensures mailbox { (mail : Mail) → IfSome mail.by IsSender
        → mail_of (mail_bytes mail) ≡ Some mail }
    ensures mailbox_1 { (message : Message) → mail_of_1 (mail_bytes_1 message) ≡ Some message }
{}

/// Law: what is read as a header of version 1 is its spelling.
pub fn law_read_header_1()
    ensures { (sector : List ℕ) (nodes : ℕ) (timing : Timing)
        → header_of_1 sector ≡ Some (nodes, timing)
        → SpellsHeader 1 sector nodes timing }
{}
