//! `dump`: the header of an image.
ghost use Rattle.qn_commands.specs.Commands.Dump.{Dumps};
ghost use Rattle.qn_commands.specs.Seen.{Input, outside, seen, sink};
ghost use Rattle.qn_commands.specs.Statuses.{code_of};

use crate::ending::{refuse, say};
use crate::fault::Fault;
use crate::image::open_header;
use crate::image_texts::dump_text;
use crate::status::Status;
use qn_io::{Env, Sink};

/// `dump`: the header of the image at that path. No memory is taken.
#[inline(never)]
pub fn dump<O: Sink, E: Env>(image: &str, out: &mut O, env: &mut E) -> Status
    ensures { (input : Input) →
        let before = seen input (sink O.written O.faults out.old)
        (outside E.calls E.faults env.old) in
        let after = seen input (sink O.written O.faults out.new)
        (outside E.calls E.faults env.new) in
        Dumps image.now before after (code_of result) }
{
    match open_header(image, env) {
        Ok((version, nodes, timing)) => say(out, &dump_text(version, nodes, &timing)),
        Err(fault) => refuse(out, Fault::of_disk(fault)),
    }
}
