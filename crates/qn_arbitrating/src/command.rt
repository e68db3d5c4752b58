//! `arbiter`: the far end of the quorum device of a cluster, which leases its vote.
ghost use Rattle.std.specs.Prelude.{◌≡◌, ◌≤◌, true, false, [], ◌∷◌, ◌++◌, OnOk, OnErr, codes, decimal};
ghost use Rattle.qn_base.specs.Faults.{HasRisen};
ghost use Rattle.qn_base.specs.declared.limits.TheConstants.{LONGEST_PERIOD};
ghost use Rattle.qn_base.specs.Plans.{Made};
ghost use Rattle.qn_model.specs.Settings.{IsValid};
ghost use Rattle.qn_commands.specs.Endings.{Says};
ghost use Rattle.qn_commands.specs.Seen.{Input, outside, seen, sink, source};
ghost use Rattle.qn_commands.specs.Statuses.{IsOneOf, code_of};
ghost use Rattle.qn_commands.specs.Works.{Works};
ghost use Rattle.qn_arbitrating.specs.Arbitrating.{FailsToListen, RunsArbiter, arbiter_opening, arbiter_outcome, arbiter_work, listening_work};

use qn_base::{Failed, Rank, ShortText};
use qn_commands::{Fault, Status, read_settings, refuse, say};
use qn_io::{Env, Opening, Sink, Source};
use qn_leases::{ArbiterEnd, ArbiterNotices, run_arbiter};
use qn_model::{Device, Settings};
use qn_polls::least_lease;
use std::alloc::Global;

/// The seat of an arbiter, one above those of the ranks.
const ARBITER: Rank = Rank(32);

/// What the words of `arbiter` say.
#[derive(Clone, Copy)]
pub struct ArbiterWords {
    /// The first port of the cluster. The arbiter listens at that port and 32 together where the outside says no other.
    pub port: u16,
    /// How many turns it runs at most.
    pub turns: u64,
}

/// `arbiter`: opens its port and answers polls, by the settings of the input. These are judged before anything is opened. Memory is taken
/// for the settings text alone. `notices` is told of the run.
#[inline(never)]
pub fn arbiter<I: Source, O: Sink, E: Env, N: ArbiterNotices>(
    alloc: Global,
    words: ArbiterWords,
    input: &mut I,
    out: &mut O,
    env: &mut E,
    notices: &mut N,
) -> Status
    ensures { let before = seen (source I.left I.faults input.old) (sink O.written O.faults out.old)
        (outside E.calls E.faults env.old) in
        let after = seen (source I.left I.faults input.new) (sink O.written O.faults out.new)
        (outside E.calls E.faults env.new) in
        RunsArbiter words before after (code_of result) }
{
    match read_settings(alloc, input) {
        Ok(settings) => open_and_serve(words, &settings, out, env, notices),
        Err(fault) => refuse(out, fault),
    }
}

/// Opens the port and answers polls, once the settings are read, where they have a device.
fn open_and_serve<O: Sink, E: Env, N: ArbiterNotices>(
    words: ArbiterWords,
    settings: &Settings,
    out: &mut O,
    env: &mut E,
    notices: &mut N,
) -> Status
    requires valid { IsValid settings.now }
    ensures works { (input : Input) →
        let before = seen input (sink O.written O.faults out.old)
        (outside E.calls E.faults env.old) in
        let after = seen input (sink O.written O.faults out.new)
        (outside E.calls E.faults env.new) in
        Works (arbiter_work words settings.now) before after (code_of result) }
    ensures unopened { code_of result ≡ 8 → FailsToListen words
        (outside E.calls E.faults env.old) (outside E.calls E.faults env.new) }
    ensures outcomes { IsOneOf (Status.Done ∷ Status.BadConf ∷ Status.WriteFault ∷ Status.EnvFault
        ∷ Status.ClockBack ∷ []) (code_of result) }
    ensures write_fault { code_of result ≡ 7 → HasRisen (O.faults out.old) (O.faults out.new) }
    ensures env_faults { E.faults env.old ≤ E.faults env.new }
    ensures sink_faults { O.faults out.old ≤ O.faults out.new }
{
    match settings.device {
        Some(device) => {
            notices.began(settings, least_lease(device));
            listen_and_serve(words, device, out, env, notices)
        }
        None => refuse(out, Fault::NoArbiter),
    }
}

/// Opens the port and answers polls, as the arbiter of that device.
fn listen_and_serve<O: Sink, E: Env, N: ArbiterNotices>(
    words: ArbiterWords,
    device: Device,
    out: &mut O,
    env: &mut E,
    notices: &mut N,
) -> Status
    requires some { 1 ≤ device.timeout }
    requires within { device.timeout ≤ LONGEST_PERIOD }
    ensures works { (input : Input) →
        let before = seen input (sink O.written O.faults out.old)
        (outside E.calls E.faults env.old) in
        let after = seen input (sink O.written O.faults out.new)
        (outside E.calls E.faults env.new) in
        Works (listening_work words device) before after (code_of result) }
    ensures unopened { code_of result ≡ 8 → FailsToListen words
        (outside E.calls E.faults env.old) (outside E.calls E.faults env.new) }
    ensures outcomes { IsOneOf (Status.Done ∷ Status.WriteFault ∷ Status.EnvFault
        ∷ Status.ClockBack ∷ []) (code_of result) }
    ensures write_fault { code_of result ≡ 7 → HasRisen (O.faults out.old) (O.faults out.new) }
    ensures env_faults { E.faults env.old ≤ E.faults env.new }
    ensures sink_faults { O.faults out.old ≤ O.faults out.new }
{
    match listen(words, env) {
        Ok(()) => {
            let end = run_arbiter(env, notices, least_lease(device).lease, words.turns);
            finish_arbiter(out, words.turns, end)
        }
        Err(Failed) => refuse(out, Fault::EnvFault),
    }
}

/// Opens the port.
fn listen<E: Env>(words: ArbiterWords, env: &mut E) -> Result<(), Failed>
    ensures opened { OnOk result
        (Made (E.faults env.old) (E.faults env.new) (E.calls env.old) (E.calls env.new)
        (arbiter_opening words true ∷ [])) }
    ensures failed { OnErr result
        (Made (E.faults env.old) (E.faults env.new) (E.calls env.old) (E.calls env.new)
        (arbiter_opening words false ∷ [])) }
{
    env.open_node(&Opening {
        images: 0,
        image: "",
        watchdog: "",
        resource: "",
        port: words.port,
        rank: ARBITER,
    })
}

/// Writes how a run of so many turns ended.
fn finish_arbiter<O: Sink>(out: &mut O, turns: u64, end: ArbiterEnd) -> Status
    ensures says { Says (arbiter_outcome turns end).text (arbiter_outcome turns end).status
        (sink O.written O.faults out.old) (sink O.written O.faults out.new) (code_of result) }
    ensures outcomes { IsOneOf (Status.Done ∷ Status.WriteFault ∷ Status.ClockBack ∷ [])
        (code_of result) }
    ensures write_fault { code_of result ≡ 7 → HasRisen (O.faults out.old) (O.faults out.new) }
    ensures sink_faults { O.faults out.old ≤ O.faults out.new }
{
    match end {
        ArbiterEnd::Turns => say(out, &turns_text(turns)),
        ArbiterEnd::ClockBack { before, now } => refuse(out, Fault::ClockBack { before, now }),
    }
}

/// What an arbiter writes after its last turn.
fn turns_text(turns: u64) -> ShortText
    ensures { result ≡ codes "turns " ++ decimal turns ++ codes "\n" }
{
    let mut text = ShortText::new();
    text.add(b"turns ");
    text.add_number(turns);
    text.add(b"\n");
    text
}
