//! What a node does at an entry: disk operations, halts, packets, and the resource.
ghost use Rattle.std.specs.Prelude.{◌≡◌, ◌<◌, ◌≤◌, ◌==◌, [], ◌∷◌, ◌++◌, Some, length, slice_get};

use crate::disk::Message;
use crate::entries::What;
use crate::packets::Packet;
use crate::seen::{HeaderSeen, MailSeen, SlotSeen};
use arrayvec::ArrayVec;
use qn_base::Rank;
use std::marker::Model;

/// What a node asks of the image.
#[derive(Clone, Copy, PartialEq, Eq, Debug)]
pub enum DiskOp {
    ReadHeader,
    /// Read the slot of that node.
    ReadSlot(Rank),
    /// Read the own mailbox before the claim, in a clean start.
    CheckMail,
    /// Write the own slot with this incarnation, dirty.
    WriteClaim(u64),
    /// Write Empty to the own mailbox.
    WriteClear,
    /// Read the own mailbox.
    ReadMail,
    /// Write Reset to the mailbox of that node.
    WriteReset(Rank),
    /// Write the own slot with this incarnation, clean.
    WriteClose(u64),
}

impl DiskOp {
    ghost use Rattle.std.specs.Prelude.{◌≡◌};
    ghost use Rattle.qn_model.specs.World.{failed, is_write};

    /// The answer of the operation where it failed: Failed for a read, false for a write.
    #[tactic(auto, unfolding(crate::specs::World::failed))]
    pub fn failed(self) -> What
        ensures { result ≡ failed self }
    {
        match self {
            DiskOp::ReadHeader => What::Header(HeaderSeen::Failed),
            DiskOp::ReadSlot(other) => What::SlotRead(other, SlotSeen::Failed),
            DiskOp::CheckMail => What::MailChecked(MailSeen::Failed),
            DiskOp::WriteClaim(_) => What::Claimed(false),
            DiskOp::WriteClear => What::Cleared(false),
            DiskOp::ReadMail => What::MailRead(MailSeen::Failed),
            DiskOp::WriteReset(other) => What::MailWritten(other, false),
            DiskOp::WriteClose(_) => What::Closed(false),
        }
    }

    /// Whether the operation writes, so that it can be left over where its node ends before it landed.
    pub fn is_write(self) -> bool
        ensures { result ≡ is_write self }
    {
        match self {
            DiskOp::ReadHeader | DiskOp::ReadSlot(_) | DiskOp::CheckMail | DiskOp::ReadMail =>
                false,
            DiskOp::WriteClaim(_)
            | DiskOp::WriteClear
            | DiskOp::WriteReset(_)
            | DiskOp::WriteClose(_) => true,
        }
    }
}

/// Why a boot halts.
#[derive(Clone, Copy, PartialEq, Eq, Debug)]
pub enum BootCause {
    ReadFailed = 1,
    NotImage = 2,
    UnsafeTiming = 3,
    ClaimFailed = 4,
    ClearFailed = 5,
    IncarnationSpent = 6,
    /// In a clean start the own mailbox was neither empty nor held Exit.
    NotClean = 7,
}

/// Why a node halts: a deadly message was in its mailbox, or a step of its boot failed.
#[derive(Clone, Copy, PartialEq, Eq, Debug)]
pub enum HaltKind {
    Deadly(Message),
    Boot(BootCause),
}

/// What a node does at an entry.
#[derive(Clone, Copy, PartialEq, Eq, Default, Debug)]
pub enum Out {
    /// Stop the resource.
    #[default]
    Stop,
    /// Start the resource.
    Start,
    /// Feed the watchdog.
    Feed,
    /// Send a packet to that node.
    Send(Rank, Packet),
    /// Ask this of the image.
    Disk(DiskOp),
    /// Disarm the watchdog.
    Disarm,
    /// End.
    Halt(HaltKind),
}

/// The outputs of one entry, in order: at most 40.
#[derive(Drop)]
pub struct Outs {
    outs: ArrayVec<Out, 40>,
}

impl Model for Outs {
    ghost use Rattle.std.specs.Prelude.{List, ◌≤◌};
    ghost use Rattle.arrayvec.specs.ArrayVec.{array_vec_len};
    ghost use Rattle.qn_model.specs.declared.outputs.Out.{Out};

    ghost Value = { List Out };

    ghost view = { λ o. o.outs.items };

    ghost invariant = { λ o. array_vec_len o.outs ≤ 40 };
}

impl Outs {
    ghost use Rattle.qn_model.specs.Log.{disk_of, has_start, has_stop};
    ghost use Rattle.qn_model.specs.Moments.{has_feed};

    /// No outputs.
    pub fn new() -> Self
        ensures { result ≡ [] }
    {
        Outs {
            outs: ArrayVec::new(),
        }
    }

    /// How many outputs there are.
    pub fn len(&self) -> usize
        ensures value { result ≡ length self.now }
        ensures fits { result ≤ 40 }
    {
        self.outs.len()
    }

    /// Whether there is no output.
    pub fn is_empty(&self) -> bool
        ensures { result ≡ (length self.now == 0) }
    {
        self.outs.is_empty()
    }

    /// The output of that place, from 0.
    pub fn get(&self, place: usize) -> Out
        requires { place < length self.now }
        ensures { slice_get self.now place ≡ Some result }
    {
        self.outs[place]
    }

    /// Adds an output after the others.
    pub fn push(&mut self, item: Out)
        requires { length self.old < 40 }
        ensures { self.new ≡ self.old ++ item ∷ [] }
    {
        self.outs.push(item);
    }

    /// Takes all outputs away.
    pub fn clear(&mut self)
        ensures { self.new ≡ [] }
    {
        self.outs.clear();
    }

    /// An equal list.
    pub fn copy(&self) -> Self
        ensures { result ≡ self.now }
    {
        let mut outs = ArrayVec::new();
        let _ = outs.try_extend_from_slice(self.outs.as_slice());
        Outs { outs }
    }

    /// The outputs in order.
    pub fn as_slice(&self) -> &[Out]
        ensures value { result.now ≡ self.now }
        ensures fits { length result.now ≤ 40 }
    {
        self.outs.as_slice()
    }

    /// The first disk operation among the outputs.
    pub fn disk(&self) -> Option<DiskOp>
        ensures { result ≡ disk_of self.now }
    {
        for out in self.as_slice() {
            if let Out::Disk(op) = out {
                return Some(*op);
            }
        }
        None
    }

    /// Whether a Stop is among the outputs.
    pub fn has_stop(&self) -> bool
        ensures { result ≡ has_stop self.now }
    {
        for out in self.as_slice() {
            if matches!(out, Out::Stop) {
                return true;
            }
        }
        false
    }

    /// Whether a Start is among the outputs.
    pub fn has_start(&self) -> bool
        ensures { result ≡ has_start self.now }
    {
        for out in self.as_slice() {
            if matches!(out, Out::Start) {
                return true;
            }
        }
        false
    }

    /// Whether a Feed is among the outputs.
    pub fn has_feed(&self) -> bool
        ensures { result ≡ has_feed self.now }
    {
        for out in self.as_slice() {
            if matches!(out, Out::Feed) {
                return true;
            }
        }
        false
    }
}
