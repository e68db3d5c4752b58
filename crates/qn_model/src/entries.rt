//! The entries of a node's history: what a node is handed, and at which tick.
use crate::outputs::DiskOp;
use crate::packets::{Ask, Tell};
use crate::seen::{HeaderSeen, MailSeen, SlotSeen};
use qn_base::{Rank, View};

/// One entry of a node's history: what the node was handed, and at which tick of its own clock, in
/// milliseconds.
#[derive(Clone, Copy, PartialEq, Eq, Debug)]
pub struct Entry {
    pub tick: u64,
    pub what: What,
}

/// What a node is handed (this project's profile).
#[derive(Clone, Copy, PartialEq, Eq, Debug)]
pub enum What {
    /// The boot begins, whatever the own mailbox holds (sbd(8), `-S 0`).
    Begin,
    /// The boot begins as a clean start: it goes on only where the own mailbox is empty or holds Exit
    /// (sbd(8), `-S 1`).
    BeginClean,
    /// The answer of a read of the image's header.
    Header(HeaderSeen),
    /// The answer of a read of that node's slot.
    SlotRead(Rank, SlotSeen),
    /// The answer of the check of the own mailbox in a clean start.
    MailChecked(MailSeen),
    /// The answer of the write that claims an incarnation: whether it succeeded.
    Claimed(bool),
    /// The answer of the write that empties the own mailbox: whether it succeeded.
    Cleared(bool),
    /// The answer of a read of the own mailbox.
    MailRead(MailSeen),
    /// The answer of the write of a reset to that node's mailbox: whether it succeeded.
    MailWritten(Rank, bool),
    /// A view of the cluster is installed.
    View(View),
    /// Another node asks whether this one holds the resource.
    Ask(Ask),
    /// Another node answers.
    Tell(Tell),
    /// The quorum device answers: whether it gives its votes.
    Device(bool),
    /// Time passed.
    Tick,
    /// The answer of a stop of the resource: whether it stopped.
    Stopped(bool),
    /// The node is to leave.
    Leave,
    /// The answer of the write that marks the own slot as clean: whether it succeeded.
    Closed(bool),
}

impl What {
    ghost use Rattle.std.specs.Prelude.{◌≡◌};
    ghost use Rattle.qn_model.specs.Fitting.{answers_op};
    ghost use Rattle.qn_model.specs.Holding.{answers_stop};
    ghost use Rattle.qn_model.specs.Log.{is_answer, is_view};
    ghost use Rattle.qn_model.specs.Moments.{begin_of};

    /// The entry that begins a boot, by whether it is a clean start.
    pub fn begin(clean: bool) -> What
        ensures { result ≡ begin_of clean }
    {
        if clean { What::BeginClean } else { What::Begin }
    }

    /// Whether the entry is the answer of a disk operation.
    pub fn is_answer(self) -> bool
        ensures { result ≡ is_answer self }
    {
        match self {
            What::Header(_)
            | What::SlotRead(..)
            | What::MailChecked(_)
            | What::Claimed(_)
            | What::Cleared(_)
            | What::MailRead(_)
            | What::MailWritten(..)
            | What::Closed(_) => true,
            What::Begin
            | What::BeginClean
            | What::View(_)
            | What::Ask(_)
            | What::Tell(_)
            | What::Device(_)
            | What::Tick
            | What::Stopped(_)
            | What::Leave => false,
        }
    }

    /// Whether the entry answers this disk operation; no entry answers none.
    pub fn answers(self, op: Option<DiskOp>) -> bool
        ensures { result ≡ answers_op op self }
    {
        match op {
            None => false,
            Some(DiskOp::ReadHeader) => matches!(self, What::Header(_)),
            Some(DiskOp::ReadSlot(rank)) =>
                matches!(self, What::SlotRead(other, _) if rank.0 == other.0),
            Some(DiskOp::CheckMail) => matches!(self, What::MailChecked(_)),
            Some(DiskOp::WriteClaim(_)) => matches!(self, What::Claimed(_)),
            Some(DiskOp::WriteClear) => matches!(self, What::Cleared(_)),
            Some(DiskOp::ReadMail) => matches!(self, What::MailRead(_)),
            Some(DiskOp::WriteReset(rank)) =>
                matches!(self, What::MailWritten(other, _) if rank.0 == other.0),
            Some(DiskOp::WriteClose(_)) => matches!(self, What::Closed(_)),
        }
    }

    /// Whether the entry installs a view.
    pub fn is_view(self) -> bool
        ensures { result ≡ is_view self }
    {
        matches!(self, What::View(_))
    }

    /// Whether the entry answers a Stop of the resource.
    pub fn answers_stop(self) -> bool
        ensures { result ≡ answers_stop self }
    {
        matches!(self, What::Stopped(_))
    }
}
