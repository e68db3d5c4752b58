//! Makes an image: erases sector 0, writes each slot and mailbox, and then the header.
ghost use Rattle.std.specs.Prelude.{◌≡◌, ◌<◌, ◌≤◌, ◌↔◌, false, length, All, IsTrue, IfErr, IsErrOf};
ghost use Rattle.qn_base.specs.Faults.{HasRisen};
ghost use Rattle.qn_base.specs.Plans.{Did};
ghost use Rattle.qn_model.specs.Settings.{IsValid};
ghost use Rattle.qn_model.specs.Sectors.{anonymous, slot_place, mail_place, header_bytes, slot_bytes, mail_bytes};
ghost use Rattle.qn_model.specs.Timing.{has_periods, is_safe};
ghost use Rattle.qn_image.specs.Causes.{IsCreateFault};
ghost use Rattle.qn_image.specs.Plans.{put_plan, write_plan};
ghost use Rattle.qn_image.specs.Writes.{writes_plan, fresh_slot, node_pair, node_writes, create_writes, create_plan};

use crate::fault::ImageFault;
use qn_base::{NodeId, Rank};
use qn_io::Env;
use qn_model::{Mail, Message, NodeEntry, Settings, Slot, Timing, timing_safe};
use qn_sector::{mail_sector, put_header, put_mail, put_slot, slot_sector};

/// Makes an image of version 2 for the nodes of the settings: sector 0 is erased, then each rank gets the slot of a
/// node that was never started and an empty mailbox, and the header comes last.
#[tactic(auto, unfolding(crate::specs::Writes::create_plan))]
pub fn create<E: Env>(env: &mut E, settings: &Settings, timing: Timing) -> Result<(), ImageFault>
    requires { IsValid settings.now }
    ensures did { Did (E.faults env.old) (E.faults env.new) (E.calls env.old) (E.calls env.new)
        (create_plan settings.now.nodes timing) result }
    ensures disk { IsErrOf result ImageFault.Disk → HasRisen (E.faults env.old) (E.faults env.new) }
    ensures unsafe_timing { IsErrOf result ImageFault.UnsafeTiming ↔ (is_safe timing ≡ false) }
    ensures faults { IfErr result IsCreateFault }
{
    if !timing_safe(&timing) {
        return Err(ImageFault::UnsafeTiming);
    }
    write_image(env, settings.nodes.as_slice(), &timing)
}

fn write_image<E: Env>(env: &mut E, nodes: &[NodeEntry], timing: &Timing) -> Result<(), ImageFault>
    requires some_node { 1 ≤ length nodes.now }
    requires few_nodes { length nodes.now ≤ 32 }
    requires ids { All (λ n. 1 ≤ n.id.0) nodes.now }
    requires times { IsTrue (has_periods timing.now) }
    ensures { Did (E.faults env.old) (E.faults env.new) (E.calls env.old) (E.calls env.new)
        (writes_plan (create_writes nodes.now timing.now)) result }
{
    write(env, 0, &[0; 512])?;
    write_nodes(env, nodes)?;
    write_header(env, nodes.len() as u32, timing)
}

fn write_nodes<E: Env>(env: &mut E, nodes: &[NodeEntry]) -> Result<(), ImageFault>
    requires few { length nodes.now ≤ 32 }
    requires ids { All (λ n. 1 ≤ n.id.0) nodes.now }
    ensures { Did (E.faults env.old) (E.faults env.new) (E.calls env.old) (E.calls env.new)
        (writes_plan (node_writes 0 nodes.now)) result }
{
    for (rank, node) in nodes.iter().enumerate() {
        write_node(env, Rank(rank as u8), node.id)?;
    }
    Ok(())
}

/// Writes the slot and the mailbox of a node that was never started.
#[tactic(auto, unfolding(crate::specs::Writes::writes_plan))]
fn write_node<E: Env>(env: &mut E, rank: Rank, id: NodeId) -> Result<(), ImageFault>
    requires rank { rank.0 < 32 }
    requires id { 1 ≤ id.0 }
    ensures { Did (E.faults env.old) (E.faults env.new) (E.calls env.old) (E.calls env.new)
        (writes_plan (node_pair rank.0 id.0)) result }
{
    write_fresh_slot(env, rank, id)?;
    write_message(env, rank, Message::Empty)
}

fn write_fresh_slot<E: Env>(env: &mut E, rank: Rank, id: NodeId) -> Result<(), ImageFault>
    requires rank { rank.0 < 32 }
    requires id { 1 ≤ id.0 }
    ensures { Did (E.faults env.old) (E.faults env.new) (E.calls env.old) (E.calls env.new)
        (put_plan (slot_place rank.0) (slot_bytes id.0 fresh_slot)) result }
{
    let slot = Slot {
        incarnation: 0,
        clean: true,
    };
    let mut sector = [0; 512];
    put_slot(id, &slot, &mut sector);
    write(env, slot_sector(rank), &sector)
}

/// Writes the message into the mailbox of the rank, with nobody named.
pub fn write_message<E: Env>(env: &mut E, rank: Rank, message: Message) -> Result<(), ImageFault>
    requires { rank.0 < 32 }
    ensures { Did (E.faults env.old) (E.faults env.new) (E.calls env.old) (E.calls env.new)
        (write_plan rank.0 message) result }
{
    let mut sector = [0; 512];
    put_mail(&Mail::anonymous(message), &mut sector);
    write(env, mail_sector(rank), &sector)
}

/// Writes the header, after which the image is one of version 2.
pub fn write_header<E: Env>(env: &mut E, nodes: u32, timing: &Timing) -> Result<(), ImageFault>
    requires some_node { 1 ≤ nodes }
    requires few_nodes { nodes ≤ 32 }
    requires times { IsTrue (has_periods timing.now) }
    ensures { Did (E.faults env.old) (E.faults env.new) (E.calls env.old) (E.calls env.new)
        (put_plan 0 (header_bytes nodes timing.now)) result }
{
    let mut sector = [0; 512];
    put_header(nodes, timing, &mut sector);
    write(env, 0, &sector)
}

fn write<E: Env>(env: &mut E, sector: u32, from: &[u8; 512]) -> Result<(), ImageFault>
    requires { sector < 3072 }
    ensures { Did (E.faults env.old) (E.faults env.new) (E.calls env.old) (E.calls env.new)
        (put_plan sector from.now) result }
{
    env.write(sector, from)?;
    Ok(())
}
