//! `message`: a message to a node of an image.
ghost use Rattle.std.specs.Prelude.{◌≡◌, ◌≤◌, IfErr, IsErrOf};
ghost use Rattle.qn_base.specs.Faults.{HasRisen};
ghost use Rattle.qn_image.specs.Causes.{IsMessageFault};
ghost use Rattle.qn_image.specs.Plans.{message_plan};
ghost use Rattle.qn_commands.specs.Commands.Message.{Sends, message_fault};
ghost use Rattle.qn_commands.specs.Images.{opened_plan};
ghost use Rattle.qn_commands.specs.Seen.{Input, outside, seen, sink};
ghost use Rattle.qn_commands.specs.Statuses.{code_of};
ghost use Rattle.qn_commands.specs.Works.{Carries};

use crate::ending::{refuse, say};
use crate::fault::Fault;
use crate::image::open;
use crate::image_texts::sent_text;
use crate::status::Status;
use qn_base::NodeId;
use qn_image::{ImageFault, message};
use qn_io::{Env, Sink};
use qn_model::Message;

/// `message`: leaves a message to the node of that id, on the image at that path. No memory is taken.
#[inline(never)]
pub fn send<O: Sink, E: Env>(
    image: &str,
    id: NodeId,
    kind: Message,
    out: &mut O,
    env: &mut E,
) -> Status
    ensures { (input : Input) →
        let before = seen input (sink O.written O.faults out.old)
        (outside E.calls E.faults env.old) in
        let after = seen input (sink O.written O.faults out.new)
        (outside E.calls E.faults env.new) in
        Sends image.now id kind before after (code_of result) }
{
    match open_and_send(image, id, kind, env) {
        Ok(()) => say(out, &sent_text(kind, id)),
        Err(fault) => refuse(out, message_fault(id, fault)),
    }
}

fn open_and_send<E: Env>(
    image: &str,
    id: NodeId,
    kind: Message,
    env: &mut E,
) -> Result<(), ImageFault>
    ensures did { Carries (opened_plan image.now (message_plan id kind))
        (outside E.calls E.faults env.old) (outside E.calls E.faults env.new) result }
    ensures disk { IsErrOf result ImageFault.Disk → HasRisen (E.faults env.old) (E.faults env.new) }
    ensures faults { IfErr result IsMessageFault }
    ensures env_faults { E.faults env.old ≤ E.faults env.new }
{
    match open(image, env) {
        Ok(()) => message(env, id, kind),
        Err(fault) => Err(fault),
    }
}

/// What a message met.
fn message_fault(id: NodeId, fault: ImageFault) -> Fault
    ensures { result ≡ message_fault id fault }
{
    match fault {
        ImageFault::UnknownNode => Fault::UnknownNode { id },
        ImageFault::DeadlyThere(held) => Fault::DeadlyThere(held),
        ImageFault::Disk
        | ImageFault::NotImage
        | ImageFault::UnsafeTiming
        | ImageFault::DamagedSector { .. } => Fault::of_disk(fault),
    }
}
