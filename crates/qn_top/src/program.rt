//! The whole program over any source, sink and outside of a node: the words are a command, and `top` does it.
ghost use Rattle.std.specs.Prelude.{◌≡◌, ◌≢◌, ◌≤◌, ◌⊎◌, ℕ, None, Some, false, map, string_bytes};
ghost use Rattle.qn_commands.specs.Seen.{outside, seen, sink, source};
ghost use Rattle.qn_commands.specs.Statuses.{code_of};
ghost use Rattle.qn_io.specs.Outside.{HasRisen};
ghost use Rattle.qn_replay.specs.Soak.{soaked};
ghost use Rattle.qn_top.specs.Commands.Replay.{ShowsRun};
ghost use Rattle.qn_top.specs.Commands.Replay3.{ShowsTripleRun};
ghost use Rattle.qn_top.specs.Commands.ReplayArbiter.{ShowsRunBeside};
ghost use Rattle.qn_top.specs.Does.{Does, calls_outside, reads_input, takes_memory};
ghost use Rattle.qn_top.specs.Runs.{Runs};
ghost use Rattle.qn_top.specs.Words.{IsProper, command_of};

use crate::command::{Command, command_of};
use crate::commands::help::help;
use crate::commands::replay::run_replay;
use crate::commands::replay_arbiter::run_replay_arbiter;
use crate::commands::replay3::run_replay3;
use crate::commands::soak::run_soak;
use crate::commands::status::run_status;
use qn_arbitrating::arbiter;
use qn_commands::{Fault, Status, count, create, dump, list, migrate, refuse, send};
use qn_io::{Env, Sink, Source};
use qn_leases::ArbiterNotices;
use qn_live::Notices;
use qn_running::{NodeImages, node, node_logged, run_audit};
use std::alloc::Global;

/// All that the program does: reads the words as a command, runs it on the input and on the outside of a node,
/// writes to the output, and gives the exit status. `notices` is told of the run of a node or an arbiter.
pub fn top<I: Source, O: Sink, E: Env, N: Notices + ArbiterNotices>(
    alloc: Global,
    words: &[String],
    input: &mut I,
    out: &mut O,
    env: &mut E,
    notices: &mut N,
) -> u8
    // The command does what its record says (specs/Does.antt).
    ensures does { let command = command_of (map string_bytes words.now) in
        let before = seen (source I.left I.faults input.old) (sink O.written O.faults out.old)
        (outside E.calls E.faults env.old) in
        let after = seen (source I.left I.faults input.new) (sink O.written O.faults out.new)
        (outside E.calls E.faults env.new) in
        Does command before after result }

    // Words that are no command: status 2, or 7 where that could not be written; and nothing else gives 2.
    ensures usage { command_of (map string_bytes words.now) ≡ None → (result ≡ 2) ⊎ (result ≡ 7) }
    ensures usage_only { result ≡ 2 → command_of (map string_bytes words.now) ≡ None }

    // What a command does not use is left as it is, and out of memory comes only to one that takes memory.
    ensures unread { reads_input (command_of (map string_bytes words.now)) ≡ false
        → input.new ≡ input.old }
    ensures uncalled { calls_outside (command_of (map string_bytes words.now)) ≡ false
        → env.new ≡ env.old }
    ensures memory { takes_memory (command_of (map string_bytes words.now)) ≡ false → result ≢ 11 }

    // Each fault of the outside that a status speaks of came, and no count of faults falls.
    ensures read_fault { result ≡ 6 → HasRisen (I.faults input.old) (I.faults input.new) }
    ensures write_fault { result ≡ 7 → HasRisen (O.faults out.old) (O.faults out.new) }
    ensures env_fault { result ≡ 8 → HasRisen (E.faults env.old) (E.faults env.new) }
    ensures never_fall { (I.faults input.old ≤ I.faults input.new)
        × (O.faults out.old ≤ O.faults out.new) × (E.faults env.old ≤ E.faults env.new) }

    // One holder at most: on each line of a replay, and after each event of a soak.
    ensures one_holder { command_of (map string_bytes words.now) ≡ Some Command.Replay
        → ShowsRun (O.written out.old) (O.written out.new) }
    ensures triple_one_holder { command_of (map string_bytes words.now) ≡ Some Command.Replay3
        → ShowsTripleRun (O.written out.old) (O.written out.new) }
    ensures one_holder_beside { command_of (map string_bytes words.now) ≡ Some Command.ReplayArbiter
        → ShowsRunBeside (O.written out.old) (O.written out.new) }
    ensures soak_one_holder { (seed events : ℕ)
        → command_of (map string_bytes words.now) ≡ Some (Command.Soak seed events) → result ≡ 0
        → (soaked seed events).tally.most_holders ≤ 1 }
{
    let status = run(alloc, words, input, out, env, notices);
    status.code()
}

/// Reads the words as a command and runs it, and says how it ended.
fn run<I: Source, O: Sink, E: Env, N: Notices + ArbiterNotices>(
    alloc: Global,
    words: &[String],
    input: &mut I,
    out: &mut O,
    env: &mut E,
    notices: &mut N,
) -> Status
    ensures { let before = seen (source I.left I.faults input.old) (sink O.written O.faults out.old)
        (outside E.calls E.faults env.old) in
        let after = seen (source I.left I.faults input.new) (sink O.written O.faults out.new)
        (outside E.calls E.faults env.new) in
        Runs (command_of (map string_bytes words.now)) before after (code_of result)
        (input.new ≡ input.old) (env.new ≡ env.old) }
{
    match command_of(words) {
        None => refuse(out, Fault::Usage),
        Some(command) => run_command(alloc, &command, input, out, env, notices),
    }
}

/// Runs a command, and says how it ended.
fn run_command<I: Source, O: Sink, E: Env, N: Notices + ArbiterNotices>(
    alloc: Global,
    command: &Command<'_>,
    input: &mut I,
    out: &mut O,
    env: &mut E,
    notices: &mut N,
) -> Status
    requires { IsProper command.now }
    ensures { let before = seen (source I.left I.faults input.old) (sink O.written O.faults out.old)
        (outside E.calls E.faults env.old) in
        let after = seen (source I.left I.faults input.new) (sink O.written O.faults out.new)
        (outside E.calls E.faults env.new) in
        Runs (Some command.now) before after (code_of result)
        (input.new ≡ input.old) (env.new ≡ env.old) }
{
    match command {
        Command::Count => count(input, out),
        Command::Replay => run_replay(alloc, input, out),
        Command::Status { form } => run_status(alloc, *form, input, out),
        Command::Soak { seed, events } => run_soak(alloc, *seed, *events, out),
        Command::Help => help(out),
        Command::Create { image, timing } => {
            create(alloc, image.as_str(), *timing, input, out, env)
        }
        Command::Dump { image } => dump(image.as_str(), out, env),
        Command::List { image } => list(image.as_str(), out, env),
        Command::Message { image, id, kind } => send(image.as_str(), *id, *kind, out, env),
        Command::Node(words) => node(alloc, NodeImages::One, words, input, out, env, notices),
        Command::Migrate { image } => migrate(image.as_str(), out, env),
        Command::Replay3 => run_replay3(alloc, input, out),
        Command::Node3(words) => node(alloc, NodeImages::Three, words, input, out, env, notices),
        Command::ReplayArbiter => run_replay_arbiter(alloc, input, out),
        Command::NodeLogged(words) => {
            node_logged(alloc, NodeImages::One, words, input, out, env, notices)
        }
        Command::Audit(words) => run_audit(alloc, words, input, out),
        Command::Node3Logged(words) => {
            node_logged(alloc, NodeImages::Three, words, input, out, env, notices)
        }
        Command::Arbiter(words) => arbiter(alloc, *words, input, out, env, notices),
    }
}
