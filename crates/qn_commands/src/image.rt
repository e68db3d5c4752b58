//! The image that a command opens first.
ghost use Rattle.std.specs.Prelude.{◌≡◌, ◌≤◌, ◌⊎◌, IfErr, IfOk, IsErrOf};
ghost use Rattle.qn_base.specs.Faults.{HasRisen};
ghost use Rattle.qn_image.specs.Causes.{IsHeaderFault};
ghost use Rattle.qn_image.specs.Plans.{header_plan};
ghost use Rattle.qn_commands.specs.Images.{open_plan, opened_plan};
ghost use Rattle.qn_commands.specs.Seen.{outside};
ghost use Rattle.qn_commands.specs.Works.{Carries};

use qn_base::Failed;
use qn_image::{ImageFault, header};
use qn_io::Env;
use qn_model::Timing;

/// Opens the image at that path.
pub(crate) fn open<E: Env>(image: &str, env: &mut E) -> Result<(), ImageFault>
    ensures did { Carries (open_plan image.now)
        (outside E.calls E.faults env.old) (outside E.calls E.faults env.new) result }
    ensures disk { IsErrOf result ImageFault.Disk → HasRisen (E.faults env.old) (E.faults env.new) }
    ensures faults { IfErr result (λ fault. fault ≡ ImageFault.Disk) }
    ensures env_faults { E.faults env.old ≤ E.faults env.new }
{
    match env.open_image(image) {
        Ok(()) => Ok(()),
        Err(Failed) => Err(ImageFault::Disk),
    }
}

/// The header of the image at that path.
pub(crate) fn open_header<E: Env>(
    image: &str,
    env: &mut E,
) -> Result<(u16, u32, Timing), ImageFault>
    ensures did { Carries (opened_plan image.now header_plan)
        (outside E.calls E.faults env.old) (outside E.calls E.faults env.new) result }
    ensures disk { IsErrOf result ImageFault.Disk → HasRisen (E.faults env.old) (E.faults env.new) }
    ensures faults { IfErr result IsHeaderFault }
    ensures version { IfOk result (λ header. (header.0 ≡ 1) ⊎ (header.0 ≡ 2)) }
    ensures few_nodes { IfOk result (λ header. header.1 ≤ 32) }
    ensures env_faults { E.faults env.old ≤ E.faults env.new }
{
    match open(image, env) {
        Ok(()) => header(env),
        Err(fault) => Err(fault),
    }
}
