//! `migrate`: an image of version 1 becomes one of version 2.
ghost use Rattle.std.specs.Prelude.{◌≡◌, ◌≤◌, IfErr, IsErrOf};
ghost use Rattle.qn_base.specs.Faults.{HasRisen};
ghost use Rattle.qn_image.specs.Causes.{IsMigrateFault};
ghost use Rattle.qn_image.specs.Migration.{migrate_plan};
ghost use Rattle.qn_commands.specs.Commands.Migrate.{Migrates};
ghost use Rattle.qn_commands.specs.Images.{opened_plan};
ghost use Rattle.qn_commands.specs.Seen.{Input, outside, seen, sink};
ghost use Rattle.qn_commands.specs.Statuses.{code_of};
ghost use Rattle.qn_commands.specs.Works.{Carries};

use crate::ending::{refuse, say};
use crate::fault::Fault;
use crate::image::open;
use crate::image_texts::migrated_text;
use crate::status::Status;
use qn_image::ImageFault;
use qn_io::{Env, Sink};

/// `migrate`: makes an image of version 2 of the one at that path. No memory is taken.
#[inline(never)]
pub fn migrate<O: Sink, E: Env>(image: &str, out: &mut O, env: &mut E) -> Status
    ensures { (input : Input) →
        let before = seen input (sink O.written O.faults out.old)
        (outside E.calls E.faults env.old) in
        let after = seen input (sink O.written O.faults out.new)
        (outside E.calls E.faults env.new) in
        Migrates image.now before after (code_of result) }
{
    match open_and_migrate(image, env) {
        Ok(nodes) => say(out, &migrated_text(nodes)),
        Err(fault) => refuse(out, Fault::of_disk(fault)),
    }
}

fn open_and_migrate<E: Env>(image: &str, env: &mut E) -> Result<u32, ImageFault>
    ensures did { Carries (opened_plan image.now migrate_plan)
        (outside E.calls E.faults env.old) (outside E.calls E.faults env.new) result }
    ensures disk { IsErrOf result ImageFault.Disk → HasRisen (E.faults env.old) (E.faults env.new) }
    ensures faults { IfErr result IsMigrateFault }
    ensures env_faults { E.faults env.old ≤ E.faults env.new }
{
    match open(image, env) {
        Ok(()) => qn_image::migrate(env),
        Err(fault) => Err(fault),
    }
}
