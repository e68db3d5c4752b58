//! The world of one image, as one that takes the lines of a schedule.
ghost use Rattle.std.specs.Prelude.{◌≡◌, ◌<◌, ◌≤◌, ◌+◌, true, None, Err, IfErr, OnErr, OnOk};
ghost use Rattle.qn_base.specs.declared.limits.TheConstants.{LATEST_TIME};
ghost use Rattle.qn_model.specs.Rules.{is_well_formed, refusal};
ghost use Rattle.qn_model.specs.Steps.{step};
ghost use Rattle.qn_model.specs.World.{World as WorldBefore};
ghost use Rattle.qn_world.specs.Memory.{needs_memory};
ghost use Rattle.qn_world.specs.Standing.{WorldFor};
ghost use Rattle.qn_world.specs.Stepping.{RefusedBy};

use crate::takes_events::TakesEvents;
use arrayvec::ArrayVec;
use qn_base::{MOST_LINE_BYTES, NoMemory, Rank};
use qn_io::{Pieces, Source};
use qn_model::{Event, LineFault, Outs, Refused, Report};
use qn_playback::{Head, read_head};
use qn_sched::{ReplayEnd, TraceWriter, read_line_into};
use qn_world::{World, blank_report};
use std::alloc::Global;

impl TakesEvents for World {
    ghost use Rattle.qn_playback.specs.HeadLaws.{head_fits};
    ghost use Rattle.qn_model.specs.World.{World as Defined};
    ghost use Rattle.qn_replay.specs.Heads.{IsGoodHead};
    ghost use Rattle.qn_replay.specs.Replay.{image_replay, image_world};

    type Event = Event;

    type Report = Report;

    type Head = Head;

    ghost World = { Defined };

    ghost world = { image_world };

    ghost replay = { image_replay };

    ghost IsGood = { IsGoodHead };

    ghost Leased = { ⊥ };

    ghost fits = { head_fits };

    fn read_head<I: Source>(
        alloc: Global,
        pieces: &mut Pieces,
        input: &mut I,
    ) -> Result<Head, ReplayEnd> {
        read_head(alloc, pieces, input)
    }

    fn lines(head: &Head) -> u64 {
        head.lines
    }

    fn begin(alloc: Global, head: Head) -> Result<World, NoMemory> {
        World::new(alloc, head.settings, head.timing)
    }

    fn blank() -> (Event, Report) {
        (Event::Tick(Rank(0)), blank_report())
    }

    #[inline(always)]
    fn read(&self, line: &[u8], into: &mut Event) -> Result<(), LineFault> {
        read_line_into(line, self.settings(), into)
    }

    fn apply(&mut self, event: &Event, reported: bool, into: &mut Report) -> Result<(), Refused> {
        if reported {
            self.apply_into(event, into)
        } else {
            apply_unreported(self, event, &mut into.outs)
        }
    }

    fn write(
        &self,
        number: u64,
        _event: &Event,
        report: &Report,
        writer: &mut TraceWriter,
        text: &mut ArrayVec<u8, MOST_LINE_BYTES>,
    ) {
        writer.write(number, report, self.settings(), text);
    }
}

/// The step of an event, of which nothing is reported; what `outs` is then is free. After a refusal the world is as it
/// was.
fn apply_unreported(world: &mut World, event: &Event, outs: &mut Outs) -> Result<(), Refused>
    requires formed { is_well_formed world.old.settings event.now ≡ true }
    requires early { world.old.time ≤ LATEST_TIME }
    requires room { 0 < world.old.steps }
    ensures stands { OnOk result ((d : WorldBefore)
        → WorldFor world.old d
        → WorldFor world.new (step world.old.settings world.old.timing event.now d)) }
    ensures allowed { OnOk result ((d : WorldBefore)
        → WorldFor world.old d
        → refusal world.old.settings world.old.timing event.now d ≡ None) }
    ensures steps { OnOk result (world.new.steps + 1 ≡ world.old.steps) }

    // An event is refused by the first rule that refuses it, or since there is no memory for it.
    ensures refused { IfErr result (λ why. (d : WorldBefore)
        → WorldFor world.old d
        → RefusedBy (refusal world.old.settings world.old.timing event.now d) why) }
    ensures memory { result ≡ Err Refused.NoMemory
        → (d : WorldBefore)
        → WorldFor world.old d
        → needs_memory world.old.settings world.old.timing event.now d ≡ true }
    ensures err { OnErr result (world.new ≡ world.old) }

    ensures settings { world.new.settings ≡ world.old.settings }
    ensures timing { world.new.timing ≡ world.old.timing }
{
    if let Err(rule) = world.allowed(event) {
        return Err(Refused::NotAllowed(rule));
    }
    if world.apply_allowed(event, outs).is_err() {
        return Err(Refused::NoMemory);
    }
    Ok(())
}
