//! The entry that answers an operation, and the good images after it.
ghost use Rattle.std.specs.Prelude.{◌≡◌, ◌≤◌, ℕ, true, length, option_to_list};
ghost use Rattle.qn_parts.specs.Parts.{is_good_on, part_on};
ghost use Rattle.qn_safety.specs.TripleRules.{is_image};
ghost use Rattle.qn_safety.specs.TripleWorld.{answer_among, answer_of, counted, good_after, has_landed, needs_good};

use crate::values::{header_of, message_among, slot_among};
use qn_model::{DiskOp, MailSeen, What};
use qn_safety::Part;

/// The entry that answers an operation, by its parts on the images 1 to 3 and whether each image is a good one of its
/// node: with fewer than two parts that count a failure, else what those parts give together.
pub fn answer_of(op: DiskOp, parts: &[Part; 3], good: &[bool; 3]) -> What
    ensures { result ≡ answer_of op (part_on parts.now) (is_good_on good.now) }
{
    let first = counted(op, good[0], parts[0]);
    let second = counted(op, good[1], parts[1]);
    let third = counted(op, good[2], parts[2]);
    match (first, second, third) {
        (Some(first), Some(second), Some(third)) => together(op, &[first, second, third]),
        (Some(first), Some(second), None) => together(op, &[first, second]),
        (Some(first), None, Some(third)) => together(op, &[first, third]),
        (None, Some(second), Some(third)) => together(op, &[second, third]),
        (Some(_), None, None) => op.failed(),
        (None, Some(_), None) => op.failed(),
        (None, None, Some(_)) => op.failed(),
        (None, None, None) => op.failed(),
    }
}

/// The good images after an answer: from the answer of its clear on those on which the clear landed and did not fail.
pub fn good_after(op: DiskOp, parts: &[Part; 3], good: &[bool; 3]) -> [bool; 3]
    ensures { (image : ℕ) → is_image image ≡ true
        → is_good_on result image ≡ good_after op (part_on parts.now) (is_good_on good.now) image }
{
    match op {
        DiskOp::WriteClear => [
            has_landed(parts[0]),
            has_landed(parts[1]),
            has_landed(parts[2]),
        ],
        DiskOp::ReadHeader
        | DiskOp::ReadSlot(_)
        | DiskOp::CheckMail
        | DiskOp::WriteClaim(_)
        | DiskOp::ReadMail
        | DiskOp::WriteReset(_)
        | DiskOp::WriteClose(_) => *good,
    }
}

/// Whether a part landed and did not fail.
fn has_landed(part: Part) -> bool
    ensures { result ≡ has_landed part }
{
    matches!(part, Part::Landed(_))
}

/// Whether a part of an operation counts on a good image alone.
fn needs_good(op: DiskOp) -> bool
    ensures { result ≡ needs_good op }
{
    matches!(op, DiskOp::ReadMail)
}

/// The value of a part that counts.
fn counted(op: DiskOp, good: bool, part: Part) -> Option<What>
    ensures { option_to_list result ≡ counted op good part }
{
    match part {
        Part::Landed(value) if good || !needs_good(op) => Some(value),
        _ => None,
    }
}

/// The entry that two or more values give together.
fn together(op: DiskOp, values: &[What]) -> What
    requires { 2 ≤ length values.now }
    ensures { result ≡ answer_among op values.now }
{
    match op {
        DiskOp::ReadHeader => What::Header(header_of(values[0])),
        DiskOp::ReadSlot(other) => What::SlotRead(other, slot_among(values)),
        DiskOp::CheckMail => What::MailChecked(MailSeen::Read(message_among(values))),
        DiskOp::WriteClaim(_) => What::Claimed(true),
        DiskOp::WriteClear => What::Cleared(true),
        DiskOp::ReadMail => What::MailRead(MailSeen::Read(message_among(values))),
        DiskOp::WriteReset(other) => What::MailWritten(other, true),
        DiskOp::WriteClose(_) => What::Closed(true),
    }
}
