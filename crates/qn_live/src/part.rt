//! The part of a read on one image.
ghost use Rattle.std.specs.Prelude.{◌≡◌, ◌≤◌, ◌<◌, if◌then◌else◌};
ghost use Rattle.qn_safety.specs.declared.part.Part.TheVariants.{Failed};
ghost use Rattle.qn_live.specs.Decoding.{decoded_in};
ghost use Rattle.qn_live.specs.Performing.{done};
ghost use Rattle.qn_live.specs.TripleDisk.{is_strange, part_of_entry, sector_on};

use crate::decoded::Decoded;
use crate::disk::done;
use qn_io::SECTOR;
use qn_model::{DiskOp, HeaderSeen, MailSeen, Settings, SlotSeen, What};
use qn_parts::Part;

/// The number of a sector of an image, 1 to 3.
pub fn sector_on(image: u32, sector: u32) -> u32
    requires from_one { 1 ≤ image }
    requires to_three { image ≤ 3 }
    requires within { sector < 1024 }
    ensures number { result ≡ sector_on image sector }
    ensures served { result < 3072 }
{
    1024 * (image - 1) + sector
}

/// The part of a read on an image, and what the bytes are: `ok` says whether it was done, and `sector` is what it read.
pub fn part_of(settings: &Settings, op: DiskOp, ok: bool, sector: &[u8; SECTOR]) -> (Part, Decoded)
    ensures part { result.0 ≡ (if ok then part_of_entry (done settings.now op sector.now) else Failed) }
    ensures decoded { result.1 ≡ (if ok then decoded_in op sector.now else Decoded.Nothing) }
{
    if ok {
        let answer = done(settings, op, sector);
        (part_of_entry(answer.entry), answer.decoded)
    } else {
        (Part::Failed, Decoded::Nothing)
    }
}

/// What an image tells by an entry: bytes that are no spelling tell nothing.
fn part_of_entry(entry: What) -> Part
    ensures { result ≡ part_of_entry entry }
{
    if is_strange(entry) {
        Part::Pending
    } else {
        Part::Landed(entry)
    }
}

fn is_strange(entry: What) -> bool
    ensures { result ≡ is_strange entry }
{
    matches!(
        entry,
        What::Header(HeaderSeen::NotImage)
            | What::SlotRead(_, SlotSeen::Damaged)
            | What::MailChecked(MailSeen::Damaged)
            | What::MailRead(MailSeen::Damaged)
    )
}
