//! Reads the header of an image, and what it says of one rank.
ghost use Rattle.std.specs.Prelude.{◌≡◌, ◌≤◌, ◌<◌, ◌⊎◌, IfOk, IfErr, IfSome, IsErrOf, IsTrue};
ghost use Rattle.qn_base.specs.Faults.{HasRisen};
ghost use Rattle.qn_base.specs.Plans.{Did};
ghost use Rattle.qn_model.specs.Timing.{has_periods};
ghost use Rattle.qn_image.specs.Causes.{IsHeaderFault, IsLineFault};
ghost use Rattle.qn_image.specs.Plans.{header_plan, slot_plan, mail_plan, line_plan};
ghost use Rattle.qn_image.specs.Versions.{any_header_of, mailbox_of, mailbox_place};

use crate::fault::ImageFault;
use qn_base::{NodeId, Rank};
use qn_io::Env;
use qn_model::{Mail, Slot, Timing};
use qn_sector::{
    get_header, get_header_1, get_mail, get_mail_1, get_slot, mail_sector, mail_sector_1,
    slot_sector,
};

/// The version, 1 or 2, the number of nodes and the times of the image, read from sector 0.
#[tactic(auto, unfolding(crate::specs::Plans::header_plan))]
pub fn header<E: Env>(env: &mut E) -> Result<(u16, u32, Timing), ImageFault>
    ensures did { Did (E.faults env.old) (E.faults env.new) (E.calls env.old) (E.calls env.new)
        header_plan result }
    ensures disk { IsErrOf result ImageFault.Disk → HasRisen (E.faults env.old) (E.faults env.new) }
    ensures faults { IfErr result IsHeaderFault }
    ensures version { IfOk result (λ h. (h.0 ≡ 1) ⊎ (h.0 ≡ 2)) }
    ensures some_node { IfOk result (λ h. 1 ≤ h.1) }
    ensures few_nodes { IfOk result (λ h. h.1 ≤ 32) }
    ensures times { IfOk result (λ h. IsTrue (has_periods h.2)) }
{
    let mut sector = [0; 512];
    env.read(0, &mut sector)?;
    any_header(&sector).ok_or(ImageFault::NotImage)
}

/// The header that the sector spells, with its version first.
#[tactic(auto, unfolding(crate::specs::Versions::any_header_of))]
fn any_header(sector: &[u8; 512]) -> Option<(u16, u32, Timing)>
    ensures gives { result ≡ any_header_of sector.now }
    ensures version { IfSome result (λ h. (h.0 ≡ 1) ⊎ (h.0 ≡ 2)) }
    ensures some_node { IfSome result (λ h. 1 ≤ h.1) }
    ensures few_nodes { IfSome result (λ h. h.1 ≤ 32) }
    ensures times { IfSome result (λ h. IsTrue (has_periods h.2)) }
{
    if let Some((nodes, timing)) = get_header(sector) {
        return Some((2, nodes, timing));
    }
    let (nodes, timing) = get_header_1(sector)?;
    Some((1, nodes, timing))
}

/// The id and the slot of a rank.
#[tactic(auto, unfolding(crate::specs::Plans::slot_plan))]
pub fn slot<E: Env>(env: &mut E, rank: Rank) -> Result<(NodeId, Slot), ImageFault>
    requires { rank.0 < 32 }
    ensures { Did (E.faults env.old) (E.faults env.new) (E.calls env.old) (E.calls env.new)
        (slot_plan rank.0) result }
{
    let place = slot_sector(rank);
    let mut sector = [0; 512];
    env.read(place, &mut sector)?;
    get_slot(&sector).ok_or(ImageFault::DamagedSector { sector: place })
}

/// The mailbox of a rank in an image of that version.
#[tactic(auto, unfolding(crate::specs::Plans::mail_plan))]
pub fn mail<E: Env>(env: &mut E, version: u16, rank: Rank) -> Result<Mail, ImageFault>
    requires { rank.0 < 32 }
    ensures { Did (E.faults env.old) (E.faults env.new) (E.calls env.old) (E.calls env.new)
        (mail_plan version rank.0) result }
{
    let place = mailbox_sector(version, rank);
    let mut sector = [0; 512];
    env.read(place, &mut sector)?;
    mailbox(version, &sector).ok_or(ImageFault::DamagedSector { sector: place })
}

/// The sector of a rank's mailbox in an image of that version.
fn mailbox_sector(version: u16, rank: Rank) -> u32
    requires { rank.0 < 32 }
    ensures sector { result ≡ mailbox_place version rank.0 }
    ensures within { result < 544 }
{
    if version == 1 {
        mail_sector_1(rank)
    } else {
        mail_sector(rank)
    }
}

/// The mailbox that the sector spells in an image of that version.
fn mailbox(version: u16, sector: &[u8; 512]) -> Option<Mail>
    ensures { result ≡ mailbox_of version sector.now }
{
    if version == 1 {
        get_mail_1(sector).map(Mail::anonymous)
    } else {
        get_mail(sector)
    }
}

/// What an image of that version, 1 or 2, says of a rank: its slot, which is read first, and its mailbox.
#[tactic(auto, unfolding(crate::specs::Plans::line_plan))]
pub fn line_of<E: Env>(
    env: &mut E,
    version: u16,
    rank: Rank,
) -> Result<(NodeId, Slot, Mail), ImageFault>
    requires version { (version ≡ 1) ⊎ (version ≡ 2) }
    requires rank { rank.0 < 32 }
    ensures did { Did (E.faults env.old) (E.faults env.new) (E.calls env.old) (E.calls env.new)
        (line_plan version rank.0) result }
    ensures disk { IsErrOf result ImageFault.Disk → HasRisen (E.faults env.old) (E.faults env.new) }
    ensures faults { IfErr result (IsLineFault version rank.0) }
{
    let (id, slot) = slot(env, rank)?;
    let mail = mail(env, version, rank)?;
    Ok((id, slot, mail))
}
