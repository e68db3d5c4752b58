//! The disk operations of a node, as three images are asked for them.
ghost use Rattle.std.specs.Prelude.{◌≡◌, ◌<◌, length};
ghost use Rattle.qn_model.specs.Settings.{IsValid};
ghost use Rattle.qn_model.specs.World.{is_write};
ghost use Rattle.qn_node.specs.Outputs.{IsNodeOutput};
ghost use Rattle.qn_safety.specs.TripleWorld.{needs_good};
ghost use Rattle.qn_live.specs.TripleDisk.{good_after_write, is_asked, is_majority};
ghost use Rattle.qn_live.specs.TripleOperations.{answer_as, checked, place_of, read_as};

use qn_base::Rank;
use qn_model::{DiskOp, Out, Settings, What};
use qn_sector::{mail_sector, slot_sector};

/// Whether an operation writes.
pub fn is_write(op: DiskOp) -> bool
    ensures { result ≡ is_write op }
{
    match op {
        DiskOp::WriteClaim(_)
        | DiskOp::WriteClose(_)
        | DiskOp::WriteClear
        | DiskOp::WriteReset(_) => true,
        DiskOp::ReadHeader | DiskOp::ReadSlot(_) | DiskOp::CheckMail | DiskOp::ReadMail => false,
    }
}

/// The read that is made for an operation: the check of a clean start reads the own mailbox.
pub fn read_as(op: DiskOp) -> DiskOp
    ensures { result ≡ read_as op }
{
    match op {
        DiskOp::CheckMail => DiskOp::ReadMail,
        DiskOp::ReadHeader
        | DiskOp::ReadSlot(_)
        | DiskOp::ReadMail
        | DiskOp::WriteClaim(_)
        | DiskOp::WriteClose(_)
        | DiskOp::WriteClear
        | DiskOp::WriteReset(_) => op,
    }
}

/// The answer of an operation, by that of the read that was made for it.
pub fn answer_as(op: DiskOp, entry: What) -> What
    ensures { result ≡ answer_as op entry }
{
    match op {
        DiskOp::CheckMail => checked(entry),
        DiskOp::ReadHeader
        | DiskOp::ReadSlot(_)
        | DiskOp::ReadMail
        | DiskOp::WriteClaim(_)
        | DiskOp::WriteClose(_)
        | DiskOp::WriteClear
        | DiskOp::WriteReset(_) => entry,
    }
}

fn checked(entry: What) -> What
    ensures { result ≡ checked entry }
{
    match entry {
        What::MailRead(seen) => What::MailChecked(seen),
        _ => entry,
    }
}

/// Whether an image is read: any, but for the own mailbox a good one alone.
pub fn is_asked(op: DiskOp, good: bool) -> bool
    ensures { result ≡ is_asked op good }
{
    good || !needs_good(op)
}

fn needs_good(op: DiskOp) -> bool
    ensures { result ≡ needs_good op }
{
    matches!(op, DiskOp::ReadMail)
}

/// The sector of an operation of the node of that rank.
pub fn place_of(settings: &Settings, me: Rank, op: DiskOp) -> u32
    requires valid { IsValid settings.now }
    requires configured { me.0 < length settings.now.nodes }
    requires rank { IsNodeOutput settings.now (Out.Disk op) }
    ensures { result ≡ place_of me.0 op }
{
    match op {
        DiskOp::ReadHeader => 0,
        DiskOp::ReadSlot(rank) => slot_sector(rank),
        DiskOp::WriteClaim(_) | DiskOp::WriteClose(_) => slot_sector(me),
        DiskOp::CheckMail | DiskOp::ReadMail | DiskOp::WriteClear => mail_sector(me),
        DiskOp::WriteReset(rank) => mail_sector(rank),
    }
}

/// The good images after a write: the own mailbox is written by the clear alone.
pub fn good_after_write(me: Rank, sector: u32, written: [bool; 3], good: [bool; 3]) -> [bool; 3]
    requires { me.0 < 32 }
    ensures { result ≡ good_after_write me.0 sector written good }
{
    if sector == mail_sector(me) {
        written
    } else {
        good
    }
}

/// Whether at least two of three images have something.
pub fn is_majority(on: &[bool; 3]) -> bool
    ensures { result ≡ is_majority on.now }
{
    on[0] && on[1] || on[0] && on[2] || on[1] && on[2]
}
