//! The slots and mailboxes of an image.
ghost use Rattle.std.specs.Prelude.{◌≡◌, length};
ghost use Rattle.qn_model.specs.declared.seen.HeaderSeen.TheVariants as seen;

use qn_base::Rank;
use qn_model::{DiskOp, HeaderSeen, MailSeen, Message, Settings, Slot, SlotSeen, Timing, What};

/// The slots and mailboxes of an image, by rank.
#[derive(Clone, Copy)]
pub struct Sectors {
    slots: [Slot; 32],
    mailboxes: [Message; 32],
}

impl Sectors {
    ghost use Rattle.std.specs.Prelude.{◌≡◌, ◌<◌, ℕ, Some, length, slice_get, slice_set};
    ghost use Rattle.qn_cluster.specs.Standing.{IsWithin};
    ghost use Rattle.qn_cluster.specs.DiskStanding.{SectorsFor};
    ghost use Rattle.qn_model.specs.declared.disk.Message.{Message};
    ghost use Rattle.qn_model.specs.declared.disk.Slot.{Slot};
    ghost use Rattle.qn_model.specs.World.{World, first_world, mailboxes_with, put, slots_with, taken};

    /// The sectors of an image as new: no slot was ever claimed, and all mailboxes are empty.
    pub fn new() -> Sectors
        ensures { SectorsFor result first_world.slots first_world.mailboxes }
    {
        let slot = Slot {
            incarnation: 0,
            clean: true,
        };
        Sectors {
            slots: [slot; 32],
            mailboxes: [Message::Empty; 32],
        }
    }

    fn slot(&self, i: Rank) -> Slot
        requires { i.0 < 32 }
        ensures { (slot : Slot) → slice_get self.now.slots i.0 ≡ Some slot → result ≡ slot }
    {
        self.slots[usize::from(i.0)]
    }

    /// The message in the mailbox of a rank.
    pub fn mailbox(&self, i: Rank) -> Message
        requires { i.0 < 32 }
        ensures { (slots : ℕ → Slot) (mailboxes : ℕ → Message) → SectorsFor self.now slots mailboxes
            → result ≡ mailboxes i.0 }
    {
        self.mailboxes[usize::from(i.0)]
    }

    fn set_slot(&mut self, i: Rank, slot: Slot)
        requires { i.0 < 32 }
        ensures { self.new ≡ record self.old { slots = slice_set self.old.slots i.0 slot } }
    {
        self.slots[usize::from(i.0)] = slot;
    }

    fn put_message(&mut self, i: Rank, message: Message)
        requires { i.0 < 32 }
        ensures { self.new
            ≡ record self.old { mailboxes = slice_set self.old.mailboxes i.0 message } }
    {
        self.mailboxes[usize::from(i.0)] = message;
    }

    /// A message replaces what the mailbox of a rank holds.
    pub fn set_mailbox(&mut self, i: Rank, message: Message)
        requires { i.0 < 32 }
        ensures { (slots : ℕ → Slot) (mailboxes : ℕ → Message)
            → SectorsFor self.old slots mailboxes
            → SectorsFor self.new slots (put mailboxes i.0 message) }
    {
        self.put_message(i, message);
    }

    /// The entry that answers an operation of a rank that lands: a read takes the value of its sector, and the header is
    /// that of the settings and the timing.
    pub fn taken(&self, settings: &Settings, timing: Timing, i: Rank, op: DiskOp) -> What
        requires within { i.0 < 32 }
        requires target { IsWithin 32 op }
        ensures { (d : World) → SectorsFor self.now d.slots d.mailboxes
            → result ≡ taken settings.now timing i.0 op d }
    {
        match op {
            DiskOp::ReadHeader => What::Header(header(settings, timing)),
            DiskOp::ReadSlot(other) => What::SlotRead(other, SlotSeen::Read(self.slot(other))),
            DiskOp::WriteClaim(_) => What::Claimed(true),
            DiskOp::WriteClear => What::Cleared(true),
            DiskOp::ReadMail => What::MailRead(MailSeen::Read(self.mailbox(i))),
            DiskOp::CheckMail => What::MailChecked(MailSeen::Read(self.mailbox(i))),
            DiskOp::WriteReset(other) => What::MailWritten(other, true),
            DiskOp::WriteClose(_) => What::Closed(true),
        }
    }

    /// An operation of a rank lands: a write replaces the value of its sector.
    pub fn write(&mut self, i: Rank, op: DiskOp)
        requires within { i.0 < 32 }
        requires target { IsWithin 32 op }
        ensures { (slots : ℕ → Slot) (mailboxes : ℕ → Message)
            → SectorsFor self.old slots mailboxes
            → SectorsFor self.new (slots_with i.0 op slots) (mailboxes_with i.0 op mailboxes) }
    {
        match op {
            DiskOp::WriteClaim(incarnation) => self.set_slot(
                i,
                Slot {
                    incarnation,
                    clean: false,
                },
            ),
            DiskOp::WriteClose(incarnation) => self.set_slot(
                i,
                Slot {
                    incarnation,
                    clean: true,
                },
            ),
            DiskOp::WriteClear => self.set_mailbox(i, Message::Empty),
            DiskOp::WriteReset(other) => self.set_mailbox(other, Message::Reset),
            DiskOp::ReadHeader | DiskOp::ReadSlot(_) | DiskOp::CheckMail | DiskOp::ReadMail => {}
        }
    }
}

/// What a read of the header gives.
fn header(settings: &Settings, timing: Timing) -> HeaderSeen
    ensures { result ≡ seen.Read (length settings.now.nodes) timing }
{
    HeaderSeen::Read {
        nodes: settings.nodes.len() as u32,
        timing,
    }
}
