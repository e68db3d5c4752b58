//! Makes an image of version 2 of one of version 1.
ghost use Rattle.std.specs.Prelude.{◌≡◌, ◌≤◌, ◌<◌, ◌⊎◌, [], Ok, Err, length, IfOk, IfErr, IsErrOf, IsTrue};
ghost use Rattle.qn_base.specs.Faults.{HasRisen};
ghost use Rattle.qn_base.specs.Plans.{Did};
ghost use Rattle.qn_model.specs.Timing.{has_periods};
ghost use Rattle.qn_image.specs.Causes.{IsMigrateFault};
ghost use Rattle.qn_image.specs.Migration.{convert_plan, mail_writes, mailboxes_plan, migrate_plan, migrate_writes};
ghost use Rattle.qn_image.specs.Writes.{writes_plan};

use crate::creating::{write_header, write_message};
use crate::fault::ImageFault;
use crate::reading::{header, mail};
use arrayvec::ArrayVec;
use qn_base::Rank;
use qn_io::Env;
use qn_model::{Message, Timing};

/// The messages of the mailboxes, in the order of the ranks.
type Messages = ArrayVec<Message, 32>;

/// Makes an image of version 2 of one of version 1, and gives its number of nodes: the mailboxes are read, each
/// message is written to its new sector, and the header comes last. An image of version 2 stays as it is.
#[tactic(auto, unfolding(crate::specs::Migration::migrate_plan))]
pub fn migrate<E: Env>(env: &mut E) -> Result<u32, ImageFault>
    ensures did { Did (E.faults env.old) (E.faults env.new) (E.calls env.old) (E.calls env.new)
        migrate_plan result }
    ensures disk { IsErrOf result ImageFault.Disk → HasRisen (E.faults env.old) (E.faults env.new) }
    ensures faults { IfErr result IsMigrateFault }
{
    let (version, nodes, timing) = header(env)?;
    if version == 2 {
        return Ok(nodes);
    }
    convert(env, nodes, &timing)?;
    Ok(nodes)
}

/// Makes an image of version 2 of one of version 1 with so many nodes and these times.
fn convert<E: Env>(env: &mut E, nodes: u32, timing: &Timing) -> Result<(), ImageFault>
    requires some_node { 1 ≤ nodes }
    requires few_nodes { nodes ≤ 32 }
    requires times { IsTrue (has_periods timing.now) }
    ensures { Did (E.faults env.old) (E.faults env.new) (E.calls env.old) (E.calls env.new)
        (convert_plan nodes timing.now) result }
{
    let messages = read_messages(env, nodes)?;
    write_image(env, nodes, timing, messages.as_slice())
}

/// The messages of the mailboxes of version 1.
fn read_messages<E: Env>(env: &mut E, nodes: u32) -> Result<Messages, ImageFault>
    requires { nodes ≤ 32 }
    ensures read { IfOk result
        (λ messages. Did (E.faults env.old) (E.faults env.new) (E.calls env.old) (E.calls env.new)
        (mailboxes_plan [] nodes) (Ok messages.items)) }
    ensures stopped { IfErr result
        (λ fault. Did (E.faults env.old) (E.faults env.new) (E.calls env.old) (E.calls env.new)
        (mailboxes_plan [] nodes) (Err fault)) }
{
    let mut messages = Messages::new();
    'ranks: for rank in 0..nodes as u8 {
        let held = mail(env, 1, Rank(rank))?;
        messages.push(held.message);
    }
    Ok(messages)
}

/// The mailboxes of version 2, and then the header.
fn write_image<E: Env>(
    env: &mut E,
    nodes: u32,
    timing: &Timing,
    messages: &[Message],
) -> Result<(), ImageFault>
    requires some_node { 1 ≤ nodes }
    requires few_nodes { nodes ≤ 32 }
    requires few_messages { length messages.now ≤ 32 }
    requires times { IsTrue (has_periods timing.now) }
    ensures { Did (E.faults env.old) (E.faults env.new) (E.calls env.old) (E.calls env.new)
        (writes_plan (migrate_writes nodes timing.now messages.now)) result }
{
    write_messages(env, messages)?;
    write_header(env, nodes, timing)
}

fn write_messages<E: Env>(env: &mut E, messages: &[Message]) -> Result<(), ImageFault>
    requires { length messages.now ≤ 32 }
    ensures { Did (E.faults env.old) (E.faults env.new) (E.calls env.old) (E.calls env.new)
        (writes_plan (mail_writes 0 messages.now)) result }
{
    for (rank, message) in messages.iter().enumerate() {
        write_message(env, Rank(rank as u8), *message)?;
    }
    Ok(())
}
