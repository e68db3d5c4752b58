//! `create`: makes an image for the settings of the input.
ghost use Rattle.std.specs.Prelude.{◌≡◌, ◌≤◌, false, ◌⊎◌, [], ◌∷◌, IfErr, IsErrOf, IsTrue};
ghost use Rattle.qn_base.specs.Faults.{HasRisen};
ghost use Rattle.qn_image.specs.Writes.{create_plan};
ghost use Rattle.qn_model.specs.Settings.{IsValid};
ghost use Rattle.qn_model.specs.Timing.{is_safe};
ghost use Rattle.qn_commands.specs.Commands.Create.{Creates, image_work};
ghost use Rattle.qn_commands.specs.Images.{opened_plan};
ghost use Rattle.qn_commands.specs.Seen.{Input, outside, seen, sink, source};
ghost use Rattle.qn_commands.specs.Statuses.{IsOneOf, code_of};
ghost use Rattle.qn_commands.specs.Works.{Carries, Works};

use crate::ending::{refuse, say};
use crate::fault::Fault;
use crate::image::open;
use crate::image_texts::created_text;
use crate::settings_text::read_settings;
use crate::status::Status;
use qn_image::ImageFault;
use qn_io::{Env, Sink, Source};
use qn_model::{Settings, Timing, timing_safe};
use std::alloc::Global;

/// `create`: makes an image at that path with these times for the settings of the input. Times that are not
/// safe are refused before anything is read, and the input is judged before anything is opened. Memory is
/// taken for the settings text.
#[inline(never)]
pub fn create<I: Source, O: Sink, E: Env>(
    alloc: Global,
    image: &str,
    timing: Timing,
    input: &mut I,
    out: &mut O,
    env: &mut E,
) -> Status
    ensures unread { is_safe timing ≡ false → input.new ≡ input.old }
    ensures uncalled { is_safe timing ≡ false → env.new ≡ env.old }
    ensures creates { let before = seen (source I.left I.faults input.old)
        (sink O.written O.faults out.old)
        (outside E.calls E.faults env.old) in
        let after = seen (source I.left I.faults input.new) (sink O.written O.faults out.new)
        (outside E.calls E.faults env.new) in
        Creates image.now timing before after (code_of result) }
{
    if !timing_safe(&timing) {
        return refuse(out, Fault::UnsafeTiming(timing));
    }
    match read_settings(alloc, input) {
        Ok(settings) => make_image(image, &settings, timing, out, env),
        Err(fault) => refuse(out, fault),
    }
}

/// Makes the image at that path, once the settings are read.
fn make_image<O: Sink, E: Env>(
    image: &str,
    settings: &Settings,
    timing: Timing,
    out: &mut O,
    env: &mut E,
) -> Status
    requires valid { IsValid settings.now }
    requires safe { IsTrue (is_safe timing) }
    ensures works { (input : Input) →
        let before = seen input (sink O.written O.faults out.old)
        (outside E.calls E.faults env.old) in
        let after = seen input (sink O.written O.faults out.new)
        (outside E.calls E.faults env.new) in
        Works (image_work image.now timing settings.now) before after (code_of result) }
    ensures outcomes { IsOneOf (Status.Done ∷ Status.WriteFault ∷ Status.EnvFault ∷ [])
        (code_of result) }
    ensures env_fault { code_of result ≡ 8 → HasRisen (E.faults env.old) (E.faults env.new) }
    ensures write_fault { code_of result ≡ 7 → HasRisen (O.faults out.old) (O.faults out.new) }
    ensures env_faults { E.faults env.old ≤ E.faults env.new }
    ensures sink_faults { O.faults out.old ≤ O.faults out.new }
{
    match open_and_create(image, settings, timing, env) {
        Ok(()) => say(out, &created_text(settings.nodes.len() as u64)),
        Err(fault) => refuse(out, Fault::of_disk(fault)),
    }
}

fn open_and_create<E: Env>(
    image: &str,
    settings: &Settings,
    timing: Timing,
    env: &mut E,
) -> Result<(), ImageFault>
    requires valid { IsValid settings.now }
    requires safe { IsTrue (is_safe timing) }
    ensures did { Carries (opened_plan image.now (create_plan settings.now.nodes timing))
        (outside E.calls E.faults env.old) (outside E.calls E.faults env.new) result }
    ensures disk { IsErrOf result ImageFault.Disk → HasRisen (E.faults env.old) (E.faults env.new) }
    ensures faults { IfErr result (λ fault. fault ≡ ImageFault.Disk) }
    ensures env_faults { E.faults env.old ≤ E.faults env.new }
{
    match open(image, env) {
        Ok(()) => qn_image::create(env, settings, timing),
        Err(fault) => Err(fault),
    }
}
