//! The world beside an arbiter, as one that takes the lines of a schedule.
use crate::arbiter_head::{ArbiterHead, read_arbiter_head};
use crate::takes_events::TakesEvents;
use arrayvec::ArrayVec;
use qn_arbiter::{ArbiterWorld, blank_report, read_arbiter_line_into, write_arbiter_trace};
use qn_base::{MOST_LINE_BYTES, NoMemory};
use qn_io::{Pieces, Source};
use qn_model::{LineFault, Refused};
use qn_safety::{ArbiterEvent, ArbiterReport};
use qn_sched::{ReplayEnd, TraceWriter};
use std::alloc::Global;

impl TakesEvents for ArbiterWorld {
    ghost use Rattle.qn_safety.specs.ArbiterWorld.{ArbiterWorld as Defined};
    ghost use Rattle.qn_replay.specs.BesideEndings.{arbiter_head_fits};
    ghost use Rattle.qn_replay.specs.BesideHeads.{IsGoodArbiterHead};
    ghost use Rattle.qn_replay.specs.BesideReplay.{beside_replay, beside_world};

    type Event = ArbiterEvent;

    type Report = ArbiterReport;

    type Head = ArbiterHead;

    ghost World = { Defined };

    ghost world = { beside_world };

    ghost replay = { beside_replay };

    ghost IsGood = { IsGoodArbiterHead };

    ghost Leased = { Unit {0} };

    ghost fits = { arbiter_head_fits };

    fn read_head<I: Source>(
        alloc: Global,
        pieces: &mut Pieces,
        input: &mut I,
    ) -> Result<ArbiterHead, ReplayEnd> {
        read_arbiter_head(alloc, pieces, input)
    }

    fn lines(head: &ArbiterHead) -> u64 {
        head.lines
    }

    fn begin(alloc: Global, head: ArbiterHead) -> Result<ArbiterWorld, NoMemory> {
        ArbiterWorld::new(alloc, head.settings, head.timing, head.lease)
    }

    fn blank() -> (ArbiterEvent, ArbiterReport) {
        (ArbiterEvent::ArbiterCrash, blank_report())
    }

    fn read(&self, line: &[u8], into: &mut ArbiterEvent) -> Result<(), LineFault> {
        read_arbiter_line_into(line, self.settings(), into)
    }

    fn apply(
        &mut self,
        event: &ArbiterEvent,
        _reported: bool,
        into: &mut ArbiterReport,
    ) -> Result<(), Refused> {
        self.apply_into(event, into)
    }

    fn write(
        &self,
        number: u64,
        event: &ArbiterEvent,
        report: &ArbiterReport,
        _writer: &mut TraceWriter,
        text: &mut ArrayVec<u8, MOST_LINE_BYTES>,
    ) {
        write_arbiter_trace(number, event, report, self.settings(), text);
    }
}
