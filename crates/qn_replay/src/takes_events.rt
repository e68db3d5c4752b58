//! The trait of a world that takes the lines of a schedule as events.
ghost use Rattle.std.specs.Io.KnownBytes.{IsAtEnd, prepend_known};
ghost use Rattle.qn_io.specs.Outside.{HasRisen};

use arrayvec::ArrayVec;
use qn_base::{MOST_LINE_BYTES, NoMemory};
use qn_io::{PIECE, Pieces, Source};
use qn_model::{LineFault, Refused};
use qn_sched::{ReplayEnd, TraceWriter};
use std::alloc::Global;

/// A world that takes the lines of a schedule as events, and the head of such a schedule.
///
/// `world` says what the world is in the definitions, of which `World` is a world, and `replay` what a replay of its schedules
/// answers. `IsGood` is what is known of a head that was read, and a lease is judged only where `Leased` holds. The law: the end of
/// a head fits the way in which its input ended.
pub(crate) trait TakesEvents: Drop {
    ghost use Rattle.std.specs.Prelude.{◌≡◌, ◌<◌, ◌≤◌, ◌+◌, ℕ, List, [], true, None, Err, IfErr, IfOk, OnErr, OnOk, length};
    ghost use Rattle.qn_base.specs.declared.limits.TheConstants.{LATEST_TIME};
    ghost use Rattle.qn_playback.specs.Parts.{Gives, Refuses};
    ghost use Rattle.qn_playback.specs.Replays.{ReplayKind};
    ghost use Rattle.qn_model.specs.Lines.{Ending};
    ghost use Rattle.qn_model.specs.Settings.{ids};
    ghost use Rattle.qn_playback.specs.Endings.{FitsWith};
    ghost use Rattle.qn_playback.specs.WorldLaws.{RefusedBy};
    ghost use Rattle.qn_replay.specs.EventWorlds.{EventWorld, after_event, read_as, rule_of, text_of_event, wants_memory};

    /// What happens in the world.
    type Event: Drop;

    /// What an event came to.
    type Report: Drop;

    /// What the head of a schedule gives.
    type Head: Drop;

    ghost World: { Type 0 };

    ghost world: { EventWorld Self Self.World Self.Event Self.Report };

    ghost replay: { ReplayKind Self.Head Self.World Self.Event };

    ghost IsGood: { Self.Head → Type 0 };

    ghost Leased: { Type 0 };

    /// Reads the head of a schedule, at the beginning of the input.
    fn read_head<I: Source>(
        alloc: Global,
        pieces: &mut Pieces,
        input: &mut I,
    ) -> Result<Self::Head, ReplayEnd>
        ensures head { IfOk result (λ head. Gives replay.head_part head
            (prepend_known pieces.old (I.left input.old))
            (prepend_known pieces.new (I.left input.new))) }
        ensures good { IfOk result IsGood }
        ensures end { IfErr result (Refuses replay.head_part
            (prepend_known pieces.old (I.left input.old))
            (prepend_known pieces.new (I.left input.new))
            ((pieces.new ≡ []) × IsAtEnd (I.left input.new))
            ((pieces.new ≡ []) × HasRisen (I.faults input.old) (I.faults input.new))) }
        ensures within { length pieces.new ≤ PIECE }
        ensures never_falls { I.faults input.old ≤ I.faults input.new };

    /// How many lines a head has.
    fn lines(head: &Self::Head) -> u64
        requires { IsGood head.now }
        ensures value { result ≡ replay.lines head.now }
        ensures few { result ≤ 4294967296 };

    /// The first world after a head.
    fn begin(alloc: Global, head: Self::Head) -> Result<Self, NoMemory>
        requires { IsGood head }
        ensures first { IfOk result (λ w. world.StandsFor w (replay.rules head).first) }
        ensures rules { IfOk result (λ w. world.rules w ≡ replay.rules head) }
        ensures settings { IfOk result (λ w. world.settings w ≡ replay.settings head) }
        ensures timing { IfOk result (λ w. world.timing w ≡ replay.timing head) }
        ensures steps { IfOk result (λ w. world.steps w ≡ 18446744073709551615) }
        ensures time { IfOk result (λ w. world.time w ≡ 0) };

    /// An event and a report that are written over.
    fn blank() -> (Self::Event, Self::Report);

    /// Puts the event that a line says in place of `into`; or the first fault of the line, and what `into` is then is
    /// free.
    fn read(&self, line: &[u8], into: &mut Self::Event) -> Result<(), LineFault>
        ensures said { read_as result into.new
            ≡ (world.rules self.now).event_of (ids (world.settings self.now).nodes) line.now }
        ensures formed { OnOk result
            (world.is_well_formed (world.settings self.now) into.new ≡ true) };

    /// The step of an event, with what it came to in place of `into` where that is asked for. After a refusal the world is
    /// as it was, and what `into` is then is free, as it is where nothing was asked for.
    fn apply(
        &mut self,
        event: &Self::Event,
        reported: bool,
        into: &mut Self::Report,
    ) -> Result<(), Refused>
        requires formed { world.is_well_formed (world.settings self.old) event.now ≡ true }
        requires early { world.time self.old ≤ LATEST_TIME }
        requires room { 0 < world.steps self.old }
        ensures stands { OnOk result ((d : Self.World)
            → world.StandsFor self.old d
            → world.StandsFor self.new (after_event world self.old event.now d)) }
        ensures report { OnOk result (reported ≡ true
            → (d : Self.World)
            → world.StandsFor self.old d
            → (number : ℕ)
            → world.trace_line (world.settings self.old) number event.now into.new
            ≡ text_of_event world self.old number event.now d) }
        ensures allowed { OnOk result ((d : Self.World)
            → world.StandsFor self.old d
            → rule_of world self.old event.now d ≡ None) }
        ensures steps { OnOk result (world.steps self.new + 1 ≡ world.steps self.old) }
        ensures time { OnOk result ((d : Self.World)
            → world.StandsFor self.old d
            → world.time self.new ≤ world.time self.old + 1000000000) }

        // An event is refused by the first rule that refuses it, or since there is no memory for it.
        ensures refused { IfErr result (λ why. (d : Self.World)
            → world.StandsFor self.old d
            → RefusedBy (rule_of world self.old event.now d) why) }
        ensures memory { result ≡ Err Refused.NoMemory
            → (d : Self.World)
            → world.StandsFor self.old d
            → wants_memory world self.old event.now d ≡ true }
        ensures err { OnErr result (self.new ≡ self.old) }

        ensures settings { world.settings self.new ≡ world.settings self.old }
        ensures timing { world.timing self.new ≡ world.timing self.old }
        ensures rules { world.rules self.new ≡ world.rules self.old };

    /// Puts the trace line of the event of that number, without its end, in place of `text`.
    fn write(
        &self,
        number: u64,
        event: &Self::Event,
        report: &Self::Report,
        writer: &mut TraceWriter,
        text: &mut ArrayVec<u8, MOST_LINE_BYTES>,
    )
        ensures text { text.new.items
            ≡ world.trace_line (world.settings self.now) number event.now report.now }
        ensures fits { length text.new.items ≤ 4000 };

    ghost fits: { (ending : Ending) (bytes : List ℕ)
        → IfErr (replay.head_part ending bytes) (λ end. FitsWith Leased end ending) };
}
