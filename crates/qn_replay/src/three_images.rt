//! The world of three images, as one that takes the lines of a schedule.
use crate::takes_events::TakesEvents;
use arrayvec::ArrayVec;
use qn_base::{MOST_LINE_BYTES, NoMemory, Rank};
use qn_io::{Pieces, Source};
use qn_model::{Event, LineFault, Refused, Report};
use qn_playback::{Head, read_head};
use qn_safety::TripleEvent;
use qn_sched::{ReplayEnd, TraceWriter};
use qn_triple::{TripleWorld, blank_report, law_triple_lines, read_triple_line_into};
use std::alloc::Global;

impl TakesEvents for TripleWorld {
    ghost use Rattle.qn_playback.specs.HeadLaws.{head_fits};
    ghost use Rattle.qn_replay.specs.Heads.{IsGoodHead};
    ghost use Rattle.qn_replay.specs.TripleReplay.{triple_replay, triple_world};
    ghost use Rattle.qn_safety.specs.TripleWorld.{TripleWorld as Defined};

    type Event = TripleEvent;

    type Report = Report;

    type Head = Head;

    ghost World = { Defined };

    ghost world = { triple_world };

    ghost replay = { triple_replay };

    ghost IsGood = { IsGoodHead };

    ghost Leased = { ⊥ };

    ghost fits = { head_fits };

    fn read_head<I: Source>(
        alloc: Global,
        pieces: &mut Pieces,
        input: &mut I,
    ) -> Result<Head, ReplayEnd> {
        read_head(alloc, pieces, input)
    }

    fn lines(head: &Head) -> u64 {
        head.lines
    }

    fn begin(alloc: Global, head: Head) -> Result<TripleWorld, NoMemory> {
        TripleWorld::new(alloc, head.settings, head.timing)
    }

    fn blank() -> (TripleEvent, Report) {
        (TripleEvent::One(Event::Tick(Rank(0))), blank_report())
    }

    fn read(&self, line: &[u8], into: &mut TripleEvent) -> Result<(), LineFault> {
        law_triple_lines();
        read_triple_line_into(line, self.settings(), into)
    }

    fn apply(
        &mut self,
        event: &TripleEvent,
        _reported: bool,
        into: &mut Report,
    ) -> Result<(), Refused> {
        self.apply_into(event, into)
    }

    fn write(
        &self,
        number: u64,
        _event: &TripleEvent,
        report: &Report,
        writer: &mut TraceWriter,
        text: &mut ArrayVec<u8, MOST_LINE_BYTES>,
    ) {
        writer.write(number, report, self.settings(), text);
    }
}
