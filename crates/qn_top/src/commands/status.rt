//! `status`: the status of each node after a schedule.
ghost use Rattle.std.specs.Prelude.{◌≤◌};
ghost use Rattle.qn_commands.specs.Seen.{Outside, seen, sink, source};
ghost use Rattle.qn_commands.specs.Statuses.{code_of};
ghost use Rattle.qn_model.specs.World.{World as WorldBefore};
ghost use Rattle.qn_top.specs.Commands.Status.{States, StatesWorld};
ghost use Rattle.qn_world.specs.Standing.{WorldFor};

use crate::command::Form;
use crate::replay_end::finish_replay;
use qn_base::Failed;
use qn_commands::{Fault, Status, refuse};
use qn_io::{Sink, Source};
use qn_replay::{last_world, law_ending};
use qn_status::{StatusFault, status_json, status_text};
use qn_world::World;
use std::alloc::Global;

/// `status`: the status of each node after the schedule that the input is, or else the fault line alone.
#[inline(never)]
pub(crate) fn run_status<I: Source, O: Sink>(
    alloc: Global,
    form: Form,
    input: &mut I,
    out: &mut O,
) -> Status
    ensures { (env : Outside) →
        let before = seen (source I.left I.faults input.old)
        (sink O.written O.faults out.old) env in
        let after = seen (source I.left I.faults input.new)
        (sink O.written O.faults out.new) env in
        States form before after (code_of result) }
{
    law_ending();
    match last_world(alloc, input) {
        Ok(world) => write_status(alloc, form, &world, out),
        Err(end) => finish_replay(out, end),
    }
}

/// The status of a world in a form.
#[inline(never)]
fn write_status<O: Sink>(alloc: Global, form: Form, world: &World, out: &mut O) -> Status
    ensures states { (d : WorldBefore) → WorldFor world.now d →
        StatesWorld form world.now.settings d (sink O.written O.faults out.old)
        (sink O.written O.faults out.new) (code_of result) }
    ensures sink_faults { O.faults out.old ≤ O.faults out.new }
{
    match form {
        Form::Text => write_text(world, out),
        Form::Json => write_json(alloc, world, out),
    }
}

/// The status of a world, a line for each node.
fn write_text<O: Sink>(world: &World, out: &mut O) -> Status
    ensures states { (d : WorldBefore) → WorldFor world.now d →
        StatesWorld Form.Text world.now.settings d (sink O.written O.faults out.old)
        (sink O.written O.faults out.new) (code_of result) }
    ensures sink_faults { O.faults out.old ≤ O.faults out.new }
{
    match status_text(world, out) {
        Ok(()) => Status::Done,
        Err(Failed) => Status::WriteFault,
    }
}

/// The status of a world as JSON.
fn write_json<O: Sink>(alloc: Global, world: &World, out: &mut O) -> Status
    ensures states { (d : WorldBefore) → WorldFor world.now d →
        StatesWorld Form.Json world.now.settings d (sink O.written O.faults out.old)
        (sink O.written O.faults out.new) (code_of result) }
    ensures sink_faults { O.faults out.old ≤ O.faults out.new }
{
    match status_json(alloc, world, out) {
        Ok(()) => Status::Done,
        Err(StatusFault::Failed) => Status::WriteFault,
        Err(StatusFault::NoMemory) => refuse(out, Fault::NoMemory),
    }
}
