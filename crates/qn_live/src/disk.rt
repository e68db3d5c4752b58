//! The disk operations of a node on one image: the call of each, and what its answer is to the node. How a node on three images does
//! each of them with the sectors of all three stands in `specs/TripleDisk`.
ghost use Rattle.std.specs.Prelude.{◌≡◌, ◌≤◌, ◌<◌, ℕ, List, false, length, if◌then◌else◌};
ghost use Rattle.qn_model.specs.Settings.{IsValid};
ghost use Rattle.qn_model.specs.World.{failed};
ghost use Rattle.qn_node.specs.Outputs.{IsNodeOutput};
ghost use Rattle.qn_live.specs.Asking.{IsServed, IsWithin, is_look, question_of};
ghost use Rattle.qn_sector.specs.Reading.{header_of, mail_of};
ghost use Rattle.qn_live.specs.Decoding.{decoded_in};
ghost use Rattle.qn_live.specs.Performing.{disk_call, done, header_seen, mail_seen, reset_by, slot_seen, write_mail, write_slot};

use crate::asked::{Asked, Room};
use crate::decoded::Decoded;
use qn_base::Rank;
use qn_io::SECTOR;
use qn_model::{
    DiskOp, HeaderSeen, Mail, MailSeen, Message, Out, Sender, Settings, Slot, SlotSeen, Timing,
    What,
};
use qn_sector::{get_header, get_mail, get_slot, mail_sector, put_mail, put_slot, slot_sector};

/// The call of a disk operation, of the node of that rank in that incarnation.
#[tactic(auto, unfolding(crate::specs::Performing::disk_call))]
pub fn ask(settings: &Settings, me: Rank, incarnation: u64, op: DiskOp, room: &mut Room) -> Asked
    requires valid { IsValid settings.now }
    requires configured { me.0 < length settings.now.nodes }
    requires rank { IsNodeOutput settings.now (Out.Disk op) }
    ensures asked { question_of result room.new ≡ disk_call settings.now me.0 incarnation op }
    ensures within { IsWithin result }
    ensures served { IsServed result }
    ensures looks { is_look result ≡ false }
{
    match op {
        DiskOp::ReadHeader => Asked::Read { sector: 0 },
        DiskOp::ReadSlot(rank) => Asked::Read {
            sector: slot_sector(rank),
        },
        DiskOp::CheckMail | DiskOp::ReadMail => Asked::Read {
            sector: mail_sector(me),
        },
        DiskOp::WriteClaim(incarnation) => ask_slot(settings, me, incarnation, false, room),
        DiskOp::WriteClose(incarnation) => ask_slot(settings, me, incarnation, true, room),
        DiskOp::WriteClear => {
            put_mail(&Mail::anonymous(Message::Empty), &mut room.sector);
            Asked::Write {
                sector: mail_sector(me),
            }
        }
        DiskOp::WriteReset(rank) => ask_reset(settings, me, incarnation, rank, room),
    }
}

/// The write of the own slot.
fn ask_slot(settings: &Settings, me: Rank, incarnation: u64, clean: bool, room: &mut Room) -> Asked
    requires valid { IsValid settings.now }
    requires configured { me.0 < length settings.now.nodes }
    ensures asked { question_of result room.new
        ≡ write_slot settings.now me.0 (record { incarnation = incarnation; clean = clean }) }
    ensures within { IsWithin result }
    ensures served { IsServed result }
    ensures looks { is_look result ≡ false }
{
    let slot = Slot { incarnation, clean };
    put_slot(settings.id_of(me), &slot, &mut room.sector);
    Asked::Write {
        sector: slot_sector(me),
    }
}

/// The write of a reset into the mailbox of a rank, which names this node.
fn ask_reset(settings: &Settings, me: Rank, incarnation: u64, rank: Rank, room: &mut Room) -> Asked
    requires valid { IsValid settings.now }
    requires configured { me.0 < length settings.now.nodes }
    requires rank { rank.0 < length settings.now.nodes }
    ensures asked { question_of result room.new
        ≡ write_mail rank.0 (reset_by settings.now me.0 incarnation) }
    ensures within { IsWithin result }
    ensures served { IsServed result }
    ensures looks { is_look result ≡ false }
{
    let by = Some(Sender {
        id: settings.id_of(me),
        incarnation,
    });
    let mail = Mail {
        message: Message::Reset,
        by,
    };
    put_mail(&mail, &mut room.sector);
    Asked::Write {
        sector: mail_sector(rank),
    }
}

/// What the answer of a disk operation is to the node, and what the bytes are that it read.
#[derive(Clone, Copy)]
pub struct DiskAnswer {
    pub entry: What,
    pub decoded: Decoded,
}

/// The answer of a disk operation: `ok` says whether it was done, and `sector` is what it read.
pub fn answer(settings: &Settings, op: DiskOp, ok: bool, sector: &[u8; SECTOR]) -> DiskAnswer
    ensures entry { result.entry ≡ (if ok then done settings.now op sector.now else failed op) }
    ensures decoded { result.decoded ≡ (if ok then decoded_in op sector.now else Decoded.Nothing) }
{
    if ok {
        done(settings, op, sector)
    } else {
        DiskAnswer {
            entry: op.failed(),
            decoded: Decoded::Nothing,
        }
    }
}

/// The answer of a disk operation that was done, and that read this sector.
#[tactic(auto, unfolding(crate::specs::Performing::done))]
pub fn done(settings: &Settings, op: DiskOp, sector: &[u8; SECTOR]) -> DiskAnswer
    ensures entry { result.entry ≡ done settings.now op sector.now }
    ensures decoded { result.decoded ≡ decoded_in op sector.now }
{
    match op {
        DiskOp::ReadHeader => {
            let header = get_header(sector);
            DiskAnswer {
                entry: What::Header(header_seen(header)),
                decoded: Decoded::Header {
                    is_one: header.is_some(),
                },
            }
        }
        DiskOp::CheckMail => {
            let mail = get_mail(sector);
            DiskAnswer {
                entry: What::MailChecked(mail_seen(mail)),
                decoded: Decoded::Mailbox(mail),
            }
        }
        DiskOp::ReadMail => {
            let mail = get_mail(sector);
            DiskAnswer {
                entry: What::MailRead(mail_seen(mail)),
                decoded: Decoded::Mailbox(mail),
            }
        }
        DiskOp::ReadSlot(rank) => {
            DiskAnswer::without_bytes(What::SlotRead(rank, slot_seen(settings, rank, sector)))
        }
        DiskOp::WriteClaim(_) => DiskAnswer::without_bytes(What::Claimed(true)),
        DiskOp::WriteClose(_) => DiskAnswer::without_bytes(What::Closed(true)),
        DiskOp::WriteClear => DiskAnswer::without_bytes(What::Cleared(true)),
        DiskOp::WriteReset(rank) => DiskAnswer::without_bytes(What::MailWritten(rank, true)),
    }
}

impl DiskAnswer {
    ghost use Rattle.std.specs.Prelude.{◌≡◌};

    /// An answer of whose bytes nobody is told.
    fn without_bytes(entry: What) -> DiskAnswer
        ensures { result ≡ record { entry = entry; decoded = Decoded.Nothing } }
    {
        DiskAnswer {
            entry,
            decoded: Decoded::Nothing,
        }
    }
}

fn header_seen(header: Option<(u32, Timing)>) -> HeaderSeen
    ensures { (bytes : List ℕ) → header ≡ header_of bytes → result ≡ header_seen bytes }
{
    match header {
        Some((nodes, timing)) => HeaderSeen::Read { nodes, timing },
        None => HeaderSeen::NotImage,
    }
}

/// A slot counts only with the id of its rank.
fn slot_seen(settings: &Settings, rank: Rank, sector: &[u8; SECTOR]) -> SlotSeen
    ensures { result ≡ slot_seen settings.now rank.0 sector.now }
{
    match get_slot(sector) {
        Some((id, slot)) if id.0 == settings.id_of(rank).0 => SlotSeen::Read(slot),
        _ => SlotSeen::Damaged,
    }
}

fn mail_seen(mail: Option<Mail>) -> MailSeen
    ensures { (bytes : List ℕ) → mail ≡ mail_of bytes → result ≡ mail_seen bytes }
{
    match mail {
        Some(mail) => MailSeen::Read(mail.message),
        None => MailSeen::Damaged,
    }
}
