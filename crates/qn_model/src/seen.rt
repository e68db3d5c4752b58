//! What a read of a header, a slot or a mailbox gave.
use crate::disk::{Message, Slot};
use crate::times::Timing;

/// What a read of the image's header gave.
#[derive(Clone, Copy, PartialEq, Eq, Debug)]
pub enum HeaderSeen {
    /// A header: its number of nodes and its times.
    Read { nodes: u32, timing: Timing },
    /// The sector is no header.
    NotImage,
    /// The read failed.
    Failed,
}

/// What a read of a slot gave.
#[derive(Clone, Copy, PartialEq, Eq, Debug)]
pub enum SlotSeen {
    Read(Slot),
    /// The sector is no slot of that node.
    Damaged,
    /// The read failed.
    Failed,
}

/// What a read of a mailbox gave.
#[derive(Clone, Copy, PartialEq, Eq, Debug)]
pub enum MailSeen {
    Read(Message),
    /// The sector is no mailbox.
    Damaged,
    /// The read failed.
    Failed,
}
