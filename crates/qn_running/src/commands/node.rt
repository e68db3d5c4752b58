//! `node` and `node3`: the member itself, a running node over its own outside.
ghost use Rattle.std.specs.Prelude.{◌≡◌, ◌≤◌, ◌<◌, ◌⊎◌, ℕ, true, false, Option, List, [], ◌∷◌, OnOk, OnErr, length};
ghost use Rattle.qn_base.specs.Faults.{HasRisen};
ghost use Rattle.qn_base.specs.Plans.{Made};
ghost use Rattle.qn_model.specs.Log.{Line};
ghost use Rattle.qn_model.specs.Settings.{IsValid};
ghost use Rattle.qn_model.specs.declared.configuration.Settings.{Settings};
ghost use Rattle.qn_running.specs.Commands.Node.{EndsWithCause, FailsToOpen, RunsNode, node_plan, node_work, opening};
ghost use Rattle.qn_commands.specs.Seen.{Input, outside, seen, sink, source};
ghost use Rattle.qn_commands.specs.Statuses.{IsOneOf, code_of};
ghost use Rattle.qn_commands.specs.Works.{Carries, Works};

use crate::node_text::{NodeText, read_node_text};
use crate::node_texts::finish_node;
use qn_base::{Failed, NodeId, Rank};
use qn_commands::{Fault, Path, Status, refuse};
use qn_io::{Env, Opening, Sink, Source};
use qn_live::{
    LiveEnd, NodeImages, Notices, law_boot_halted, law_end_causes, law_triple_boot_halted,
    law_triple_end_causes, run_on,
};
use std::alloc::Global;

/// What the words of `node` and `node3` say.
#[derive(Drop)]
pub struct NodeWords<'words> {
    pub id: NodeId,
    /// The path of the image; of three images their paths, separated by commas.
    pub image: Path<'words>,
    pub watchdog: Path<'words>,
    pub resource: Path<'words>,
    /// The first port of the cluster; the node listens at that port and its rank together.
    pub port: u16,
    /// How many turns the node runs at most, from 1.
    pub turns: u64,
    /// The number of the turn, from 1, from which on the node is to leave.
    pub leave: Option<u64>,
    /// Whether the boot is a clean start (start mode 1).
    pub clean: bool,
}

/// `node`, and on three images `node3`: runs the node of that id over the outside, by the settings text of the input; it polls its
/// arbiter where the text names one. The settings and the id are judged before anything is opened. `notices` is told of the run. Memory is taken for the settings text.
pub fn node<I: Source, O: Sink, E: Env, N: Notices>(
    alloc: Global,
    images: NodeImages,
    words: &NodeWords<'_>,
    input: &mut I,
    out: &mut O,
    env: &mut E,
    notices: &mut N,
) -> Status
    requires some_turn { 1 ≤ words.now.turns }
    ensures { let before = seen (source I.left I.faults input.old) (sink O.written O.faults out.old)
        (outside E.calls E.faults env.old) in
        let after = seen (source I.left I.faults input.new) (sink O.written O.faults out.new)
        (outside E.calls E.faults env.new) in
        RunsNode images words.now before after (code_of result) }
{
    law_node_ends();
    match read_node_text(alloc, input) {
        Ok(text) => open_and_run(images, words, &text, out, env, notices),
        Err(fault) => refuse(out, fault),
    }
}

/// Opens and runs the node, once the settings are read.
fn open_and_run<O: Sink, E: Env, N: Notices>(
    images: NodeImages,
    words: &NodeWords<'_>,
    text: &NodeText,
    out: &mut O,
    env: &mut E,
    notices: &mut N,
) -> Status
    requires valid { IsValid text.now.settings }
    requires some_turn { 1 ≤ words.now.turns }
    ensures works { (input : Input) →
        let before = seen input (sink O.written O.faults out.old)
        (outside E.calls E.faults env.old) in
        let after = seen input (sink O.written O.faults out.new)
        (outside E.calls E.faults env.new) in
        Works (node_work images words.now text.now.polls text.now.settings) before after (code_of result) }
    ensures unopened { code_of result ≡ 8 → FailsToOpen images words.now
        (outside E.calls E.faults env.old) (outside E.calls E.faults env.new) }
    ensures outcomes { IsOneOf (Status.Done ∷ Status.WriteFault ∷ Status.EnvFault ∷ Status.ClockBack
        ∷ Status.SelfReset ∷ Status.BootHalted ∷ Status.UnknownNode ∷ []) (code_of result) }
    ensures write_fault { code_of result ≡ 7 → HasRisen (O.faults out.old) (O.faults out.new) }
    ensures env_faults { E.faults env.old ≤ E.faults env.new }
    ensures sink_faults { O.faults out.old ≤ O.faults out.new }
{
    let Some(rank) = text.settings.nodes.rank_of(u64::from(words.id.0)) else {
        return refuse(out, Fault::UnknownNode { id: words.id });
    };
    match open(images, words, rank, env) {
        Ok(()) => {
            let end = run(images, words, text, rank, env, notices);
            finish_node(out, words.turns, end)
        }
        Err(Failed) => refuse(out, Fault::EnvFault),
    }
}

/// Opens all that the node of that rank uses.
pub(crate) fn open<E: Env>(
    images: NodeImages,
    words: &NodeWords<'_>,
    rank: Rank,
    env: &mut E,
) -> Result<(), Failed>
    ensures opened { OnOk result
        (Made (E.faults env.old) (E.faults env.new) (E.calls env.old) (E.calls env.new)
        (opening images words.now rank.0 true ∷ [])) }
    ensures failed { OnErr result
        (Made (E.faults env.old) (E.faults env.new) (E.calls env.old) (E.calls env.new)
        (opening images words.now rank.0 false ∷ [])) }
{
    env.open_node(&Opening {
        images: images.count(),
        image: words.image.as_str(),
        watchdog: words.watchdog.as_str(),
        resource: words.resource.as_str(),
        port: words.port,
        rank,
    })
}

/// Runs the opened node of that rank.
fn run<E: Env, N: Notices>(
    images: NodeImages,
    words: &NodeWords<'_>,
    text: &NodeText,
    rank: Rank,
    env: &mut E,
    notices: &mut N,
) -> LiveEnd
    requires valid { IsValid text.now.settings }
    requires configured { rank.0 < length text.now.settings.nodes }
    requires some_turn { 1 ≤ words.now.turns }
    ensures did { (log : List Line) × Carries
        (node_plan images words.now text.now.polls text.now.settings rank.0)
        (outside E.calls E.faults env.old) (outside E.calls E.faults env.new)
        (record { end = result; log = log }) }
{
    run_on(
        env,
        notices,
        images,
        &text.settings,
        rank,
        words.clean,
        words.leave,
        text.polls,
        words.turns,
    )
}

/// Law: a node in whose run no call failed was not halted in its boot by a failed call, and one whose ticks did not fall did not
/// end because the clock went back. A boot that a failed call halted was halted by the last disk operation of the run.
pub(crate) fn law_node_ends()
    ensures { (images : NodeImages) (words : NodeWords) (polls : Option ℕ) (settings : Settings)
        (rank : ℕ) → EndsWithCause images words polls settings rank }
{
    law_boot_halted();
    law_end_causes();
    law_triple_boot_halted();
    law_triple_end_causes();
}
