//! `list`: a line for each node of an image.
ghost use Rattle.std.specs.Prelude.{◌≡◌, ◌<◌, ◌≤◌, ◌⊎◌, [], ◌∷◌, IfNone, IfSome};
ghost use Rattle.qn_base.specs.Faults.{HasRisen};
ghost use Rattle.qn_commands.specs.Commands.List.{Lists, ListsRank, StopsAtRank, ranks_work};
ghost use Rattle.qn_commands.specs.Seen.{Input, outside, seen, sink};
ghost use Rattle.qn_commands.specs.Statuses.{IsOneOf, code_of};
ghost use Rattle.qn_commands.specs.Works.{Works};

use crate::ending::refuse;
use crate::fault::Fault;
use crate::image::open_header;
use crate::image_texts::list_line;
use crate::status::Status;
use qn_base::{Failed, Rank};
use qn_image::line_of;
use qn_io::{Env, Sink, put_all};

/// `list`: a line for each node of the image at that path. A line is written before the next rank is read.
/// No memory is taken.
#[inline(never)]
pub fn list<O: Sink, E: Env>(image: &str, out: &mut O, env: &mut E) -> Status
    ensures { (input : Input) →
        let before = seen input (sink O.written O.faults out.old)
        (outside E.calls E.faults env.old) in
        let after = seen input (sink O.written O.faults out.new)
        (outside E.calls E.faults env.new) in
        Lists image.now before after (code_of result) }
{
    match open_header(image, env) {
        Ok((version, nodes, _)) => list_ranks(version, nodes, out, env),
        Err(fault) => refuse(out, Fault::of_disk(fault)),
    }
}

/// The lines of the first so many ranks of an image of that version.
fn list_ranks<O: Sink, E: Env>(version: u16, nodes: u32, out: &mut O, env: &mut E) -> Status
    requires version { (version ≡ 1) ⊎ (version ≡ 2) }
    requires nodes { nodes ≤ 32 }
    ensures works { (input : Input) →
        let before = seen input (sink O.written O.faults out.old)
        (outside E.calls E.faults env.old) in
        let after = seen input (sink O.written O.faults out.new)
        (outside E.calls E.faults env.new) in
        Works (ranks_work version 0 nodes) before after (code_of result) }
    ensures outcomes { IsOneOf
        (Status.Done ∷ Status.BadImage ∷ Status.WriteFault ∷ Status.EnvFault ∷ [])
        (code_of result) }
    ensures env_fault { code_of result ≡ 8 → HasRisen (E.faults env.old) (E.faults env.new) }
    ensures write_fault { code_of result ≡ 7 → HasRisen (O.faults out.old) (O.faults out.new) }
    ensures env_faults { E.faults env.old ≤ E.faults env.new }
    ensures sink_faults { O.faults out.old ≤ O.faults out.new }
{
    'ranks: for rank in 0..nodes as u8 {
        if let Some(status) = list_rank(version, Rank(rank), out, env) {
            return status;
        }
    }
    Status::Done
}

/// The line of a rank, or the status that the command ends with.
fn list_rank<O: Sink, E: Env>(version: u16, rank: Rank, out: &mut O, env: &mut E) -> Option<Status>
    requires version { (version ≡ 1) ⊎ (version ≡ 2) }
    requires rank { rank.0 < 32 }
    ensures listed { IfNone result ((input : Input) →
        let before = seen input (sink O.written O.faults out.old)
        (outside E.calls E.faults env.old) in
        let after = seen input (sink O.written O.faults out.new)
        (outside E.calls E.faults env.new) in
        ListsRank version rank.0 before after) }
    ensures stopped { IfSome result (λ status. (input : Input) →
        let before = seen input (sink O.written O.faults out.old)
        (outside E.calls E.faults env.old) in
        let after = seen input (sink O.written O.faults out.new)
        (outside E.calls E.faults env.new) in
        StopsAtRank version rank.0 before after (code_of status)) }
    ensures outcomes { IfSome result (λ status. IsOneOf
        (Status.Done ∷ Status.BadImage ∷ Status.WriteFault ∷ Status.EnvFault ∷ [])
        (code_of status)) }
    ensures env_fault { IfSome result (λ status.
        code_of status ≡ 8 → HasRisen (E.faults env.old) (E.faults env.new)) }
    ensures write_fault { IfSome result (λ status.
        code_of status ≡ 7 → HasRisen (O.faults out.old) (O.faults out.new)) }
    ensures env_faults { E.faults env.old ≤ E.faults env.new }
    ensures sink_faults { O.faults out.old ≤ O.faults out.new }
{
    match line_of(env, version, rank) {
        Ok((id, slot, mail)) => {
            let text = list_line(id, &slot, &mail);
            match put_all(out, text.as_slice()) {
                Ok(()) => None,
                Err(Failed) => Some(Status::WriteFault),
            }
        }
        Err(fault) => Some(refuse(out, Fault::of_disk(fault))),
    }
}
