//! `node-logged` and `node3-logged`: a running node whose calls are recorded.
ghost use Rattle.std.specs.Prelude.{◌≡◌, ◌≤◌, ◌<◌, ◌⊎◌, [], ◌∷◌, Some, length, true};
ghost use Rattle.qn_base.specs.Faults.{HasRisen};
ghost use Rattle.qn_model.specs.Settings.{IsValid};
ghost use Rattle.qn_running.specs.Commands.Node.{FailsToOpen, rank_with};
ghost use Rattle.qn_running.specs.Commands.NodeLogged.{LogsNode, Opens, RunsLogged, WorksLogged};
ghost use Rattle.qn_commands.specs.Seen.{Input, Outside, outside, seen, sink, source};
ghost use Rattle.qn_commands.specs.Statuses.{IsOneOf, code_of};

use crate::commands::node::{NodeWords, law_node_ends, open};
use crate::node_text::{NodeText, read_node_text};
use crate::node_texts::finish_node;
use qn_audit::{Recorder, run_recorded};
use qn_base::{Failed, Rank};
use qn_commands::{Fault, Status, refuse};
use qn_io::{Env, Sink, Source};
use qn_live::{LiveEnd, NodeImages, Notices};
use std::alloc::Global;

/// `node-logged`, and on three images `node3-logged`: runs the node as `node` and `node3` do, and writes each of its calls with its answer as a line before the next
/// call. `notices` is told of the run. Memory is taken for the settings text alone.
#[inline(never)]
pub fn node_logged<I: Source, O: Sink, E: Env, N: Notices>(
    alloc: Global,
    images: NodeImages,
    words: &NodeWords<'_>,
    input: &mut I,
    out: &mut O,
    env: &mut E,
    notices: &mut N,
) -> Status
    requires some_turn { 1 ≤ words.now.turns }
    ensures { let before = seen (source I.left I.faults input.old) (sink O.written O.faults out.old)
        (outside E.calls E.faults env.old) in
        let after = seen (source I.left I.faults input.new) (sink O.written O.faults out.new)
        (outside E.calls E.faults env.new) in
        LogsNode images words.now before after (code_of result) }
{
    law_node_ends();
    match read_node_text(alloc, input) {
        Ok(text) => open_and_record(images, words, &text, out, env, notices),
        Err(fault) => refuse(out, fault),
    }
}

/// Opens and runs the node, once the settings are read, and records its calls.
fn open_and_record<O: Sink, E: Env, N: Notices>(
    images: NodeImages,
    words: &NodeWords<'_>,
    text: &NodeText,
    out: &mut O,
    env: &mut E,
    notices: &mut N,
) -> Status
    requires valid { IsValid text.now.settings }
    requires some_turn { 1 ≤ words.now.turns }
    ensures works { (input : Input) →
        let before = seen input (sink O.written O.faults out.old)
        (outside E.calls E.faults env.old) in
        let after = seen input (sink O.written O.faults out.new)
        (outside E.calls E.faults env.new) in
        WorksLogged images words.now text.now.polls text.now.settings before after
        (code_of result) }
    ensures unopened { code_of result ≡ 8 → FailsToOpen images words.now
        (outside E.calls E.faults env.old) (outside E.calls E.faults env.new) }
    ensures outcomes { IsOneOf (Status.Done ∷ Status.WriteFault ∷ Status.EnvFault ∷ Status.ClockBack
        ∷ Status.SelfReset ∷ Status.BootHalted ∷ Status.UnknownNode ∷ []) (code_of result) }
    ensures write_fault { code_of result ≡ 7 → HasRisen (O.faults out.old) (O.faults out.new) }
    ensures env_faults { E.faults env.old ≤ E.faults env.new }
    ensures sink_faults { O.faults out.old ≤ O.faults out.new }
{
    let Some(rank) = text.settings.nodes.rank_of(u64::from(words.id.0)) else {
        return refuse(out, Fault::UnknownNode { id: words.id });
    };
    match open(images, words, rank, env) {
        Ok(()) => run_and_finish(images, words, text, rank, out, env, notices),
        Err(Failed) => refuse(out, Fault::EnvFault),
    }
}

/// Runs the opened node of that rank and records its calls, and then writes how it ended. Where the log could not be
/// written, nothing more is.
fn run_and_finish<O: Sink, E: Env, N: Notices>(
    images: NodeImages,
    words: &NodeWords<'_>,
    text: &NodeText,
    rank: Rank,
    out: &mut O,
    env: &mut E,
    notices: &mut N,
) -> Status
    requires valid { IsValid text.now.settings }
    requires configured { rank.0 < length text.now.settings.nodes }
    requires some_turn { 1 ≤ words.now.turns }
    ensures works { (input : Input) (first : Outside)
        → Opens images words.now rank.0 first (outside E.calls E.faults env.old)
        → Some rank.0 ≡ rank_with text.now.settings words.now.id
        → WorksLogged images words.now text.now.polls text.now.settings
        (seen input (sink O.written O.faults out.old) first)
        (seen input (sink O.written O.faults out.new) (outside E.calls E.faults env.new))
        (code_of result) }
    ensures outcomes { IsOneOf (Status.Done ∷ Status.WriteFault ∷ Status.ClockBack
        ∷ Status.SelfReset ∷ Status.BootHalted ∷ []) (code_of result) }
    ensures write_fault { code_of result ≡ 7 → HasRisen (O.faults out.old) (O.faults out.new) }
    ensures env_faults { E.faults env.old ≤ E.faults env.new }
    ensures sink_faults { O.faults out.old ≤ O.faults out.new }
{
    let (end, whole) = run_and_record(images, words, text, rank, out, env, notices);
    if !whole {
        return Status::WriteFault;
    }
    finish_node(out, words.turns, end)
}

/// Runs the opened node of that rank: how it ended, and whether its whole log was written.
fn run_and_record<O: Sink, E: Env, N: Notices>(
    images: NodeImages,
    words: &NodeWords<'_>,
    text: &NodeText,
    rank: Rank,
    out: &mut O,
    env: &mut E,
    notices: &mut N,
) -> (LiveEnd, bool)
    requires valid { IsValid text.now.settings }
    requires configured { rank.0 < length text.now.settings.nodes }
    requires some_turn { 1 ≤ words.now.turns }
    ensures did { RunsLogged images words.now text.now.polls text.now.settings rank.0
        (sink O.written O.faults out.old) (sink O.written O.faults out.new)
        (outside E.calls E.faults env.old) (outside E.calls E.faults env.new) result.0 result.1 }
    ensures env_faults { E.faults env.old ≤ E.faults env.new }
    ensures sink_faults { O.faults out.old ≤ O.faults out.new }
{
    let mut recorder = Recorder::new(env, out);
    let end = run_recorded(
        &mut recorder,
        notices,
        images,
        &text.settings,
        rank,
        words.clean,
        words.leave,
        text.polls,
        words.turns,
    );
    (end, recorder.is_whole())
}
