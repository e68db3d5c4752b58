//! Writes a deadly message into the mailbox of one node.
ghost use Rattle.std.specs.Prelude.{◌≡◌, ◌≤◌, ◌<◌, IfErr, IsErrOf};
ghost use Rattle.qn_base.specs.Faults.{HasRisen};
ghost use Rattle.qn_base.specs.Plans.{Did};
ghost use Rattle.qn_image.specs.Causes.{IsMessageFault};
ghost use Rattle.qn_image.specs.Plans.{message_plan, reads_first, search_plan, send_plan};

use crate::creating::write_message;
use crate::fault::ImageFault;
use crate::reading::{header, mail, slot};
use qn_base::{NodeId, Rank};
use qn_io::Env;
use qn_model::Message;

/// Leaves a message in the mailbox of the node with that id, on an image of version 2: the header is read, and
/// then the slots in order until one has the id. A test or an exit replaces no deadly message: the mailbox is
/// read before them.
pub fn message<E: Env>(env: &mut E, id: NodeId, message: Message) -> Result<(), ImageFault>
    ensures did { Did (E.faults env.old) (E.faults env.new) (E.calls env.old) (E.calls env.new)
        (message_plan id message) result }
    ensures disk { IsErrOf result ImageFault.Disk → HasRisen (E.faults env.old) (E.faults env.new) }
    ensures faults { IfErr result IsMessageFault }
{
    let (version, nodes, _) = header(env)?;
    if version != 2 {
        return Err(ImageFault::NotImage);
    }
    send(env, nodes, id, message)
}

fn send<E: Env>(env: &mut E, nodes: u32, id: NodeId, message: Message) -> Result<(), ImageFault>
    requires { nodes ≤ 32 }
    ensures { Did (E.faults env.old) (E.faults env.new) (E.calls env.old) (E.calls env.new)
        (search_plan id message 0 nodes) result }
{
    'ranks: for rank in 0..nodes as u8 {
        let (found, _) = slot(env, Rank(rank))?;
        if found == id {
            return leave(env, Rank(rank), message);
        }
    }
    Err(ImageFault::UnknownNode)
}

/// Leaves the message in the mailbox of the rank.
#[tactic(auto, unfolding(crate::specs::Plans::send_plan))]
fn leave<E: Env>(env: &mut E, rank: Rank, message: Message) -> Result<(), ImageFault>
    requires { rank.0 < 32 }
    ensures { Did (E.faults env.old) (E.faults env.new) (E.calls env.old) (E.calls env.new)
        (send_plan rank.0 message) result }
{
    if !reads_first(message) {
        return write_message(env, rank, message);
    }
    let held = mail(env, 2, rank)?;
    if held.message.is_deadly() {
        return Err(ImageFault::DeadlyThere(held.message));
    }
    write_message(env, rank, message)
}

/// Whether the mailbox is read before the message is written.
fn reads_first(message: Message) -> bool
    ensures { result ≡ reads_first message }
{
    match message {
        Message::Test | Message::Exit => true,
        Message::Empty | Message::Reset | Message::Off | Message::Crashdump => false,
    }
}
