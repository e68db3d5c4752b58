//! Plays the lines of a schedule after its head, up to their end or first fault.
ghost use Rattle.std.specs.Prelude.{◌≡◌, ◌≢◌, ◌≤◌, ◌<◌, ◌+◌, ◌^◌, [], ◌∷◌, length, Ok, OnOk, OnErr, IfErr, IfSome};
ghost use Rattle.std.specs.Io.KnownBytes.{prepend_known};
ghost use Rattle.qn_io.specs.Outside.{HasRisen};
ghost use Rattle.qn_playback.specs.Lines.{rest_of};
ghost use Rattle.qn_model.specs.Lines.{Ended};
ghost use Rattle.qn_playback.specs.Runs.{AnswersWhole, Finishes, Runs, WantsAtLine};

use crate::lines::Lines;
use crate::output::Output;
use crate::plays::Plays;
use arrayvec::ArrayVec;
use qn_base::{MOST_EVENTS, MOST_LINE_BYTES};
use qn_io::{LineRead, Pieces, Sink, Source};
use qn_model::LineFault;
use qn_sched::ReplayEnd;

/// Plays the lines of an input after its head, which had so many lines: reads on after these pieces, gives each
/// line to the world, and writes the trace alone. The text is written in blocks of up to 8192 bytes, before
/// more of the input is read and before the run ends.
pub fn play<W: Plays, I: Source, O: Sink>(
    world: &mut W,
    head: u64,
    pieces: Pieces,
    output: Output,
    input: &mut I,
    out: &mut O,
) -> ReplayEnd
    requires stands { W.stands world.old world.old [] }
    requires numbered { head < 2 ^ 63 }
    requires nothing_waits { output ≡ [] }
    // The trace and the end are the defined ones of the bytes that were taken, or a prefix of the trace was written.
    ensures runs { Runs (rest_of (W.play world.old) head []) (W.stands world.old world.new)
        (WantsAtLine (W.play world.old) (W.wants world.old) (W.stands world.old world.new) head)
        (prepend_known pieces (I.left input.old)) (I.left input.new)
        (HasRisen (I.faults input.old) (I.faults input.new))
        (O.written out.old) (O.written out.new)
        (HasRisen (O.faults out.old) (O.faults out.new)) result }

    // Where nothing failed, they are those of all the bytes that were there.
    ensures complete { ¬ HasRisen (I.faults input.old) (I.faults input.new)
        → ¬ HasRisen (O.faults out.old) (O.faults out.new)
        → result ≢ ReplayEnd.NoMemory
        → IfSome (prepend_known pieces (I.left input.old)) (λ bytes.
        AnswersWhole (rest_of (W.play world.old) head [] Ended bytes) (O.written out.old)
        (O.written out.new) result) }

    ensures source_faults { I.faults input.old ≤ I.faults input.new }
    ensures sink_faults { O.faults out.old ≤ O.faults out.new }
{
    let mut lines = Lines::new(pieces, output);
    let mut place = Place { head, events: 0 };
    let mut text = ArrayVec::new();
    'lines: loop {
        let Ok(next) = lines.next(input, out) else {
            return ReplayEnd::WriteFault;
        };
        if let Err(end) = place.judge(next.read(), lines.text(next), world, &mut text) {
            lines.pass_over(next);
            return finish(end, &mut lines.output, out);
        }
        lines.pass_over(next);
        let Ok(()) = lines.output.put(out, text.as_slice()) else {
            return ReplayEnd::WriteFault;
        };
    }
}

/// The end of a run, before which what waits is written.
fn finish<O: Sink>(end: ReplayEnd, output: &mut Output, out: &mut O) -> ReplayEnd
    ensures finishes { Finishes end output.old (O.written out.old) (O.written out.new)
        (HasRisen (O.faults out.old) (O.faults out.new)) result }
    ensures never_falls { O.faults out.old ≤ O.faults out.new }
{
    match output.flush(out) {
        Ok(()) => end,
        Err(_) => ReplayEnd::WriteFault,
    }
}

/// How many lines the head of an input had, and how many the world took after it.
#[derive(Clone, Copy)]
struct Place {
    head: u64,
    events: u64,
}

impl Place {
    ghost use Rattle.qn_playback.specs.Judging.{RefusesAt, StandsAfter, judged};
    ghost use Rattle.qn_playback.specs.Lines.{Taken, bad_line, end_at, line_of};

    /// What comes of the bytes that were read of a line: the world takes the line, and `text` is its trace text;
    /// or the end.
    #[inline(always)]
    fn judge<W: Plays>(
        &mut self,
        read: LineRead,
        line: &[u8],
        world: &mut W,
        text: &mut ArrayVec<u8, MOST_LINE_BYTES>,
    ) -> Result<(), ReplayEnd>
        requires stands { (start : W) × StandsAfter (W.stands start world.old) self.old.events }
        requires numbered { self.old.head < 2 ^ 63 }
        requires short { length line.now ≤ MOST_LINE_BYTES }
        ensures text { OnOk result ((start : W) (earlier : Taken) → W.stands start world.old earlier
            → length earlier ≡ self.old.events
            → judged (W.play start) self.old.head read earlier line.now ≡ Ok text.new.items) }
        ensures stands { OnOk result
            ((start : W) (earlier : Taken) → W.stands start world.old earlier
            → W.stands start world.new (line.now ∷ earlier)) }
        ensures end { IfErr result
            (λ end. (start : W) (earlier : Taken) → W.stands start world.old earlier
            → length earlier ≡ self.old.events
            → RefusesAt (judged (W.play start) self.old.head read)
            (W.wants start) earlier line.now end) }
        ensures kept { OnErr result
            ((start : W) (earlier : Taken) → W.stands start world.old earlier
            → W.stands start world.new earlier) }
        ensures counted { OnOk result (self.new.events ≡ self.old.events + 1) }
        ensures few { OnOk result (self.old.events < MOST_EVENTS) }
        ensures head { self.new.head ≡ self.old.head }
    {
        match read {
            LineRead::Line => self.take(line, world, text),
            LineRead::Rest => Err(self.end_at(line)),
            LineRead::TooLong => Err(self.bad_line(LineFault::TooLong)),
            LineRead::Failed => Err(ReplayEnd::ReadFault),
        }
    }

    /// Gives a whole line to the world, where there may be a further one.
    #[inline(always)]
    fn take<W: Plays>(
        &mut self,
        line: &[u8],
        world: &mut W,
        text: &mut ArrayVec<u8, MOST_LINE_BYTES>,
    ) -> Result<(), ReplayEnd>
        requires stands { (start : W) × StandsAfter (W.stands start world.old) self.old.events }
        requires numbered { self.old.head < 2 ^ 63 }
        requires short { length line.now ≤ MOST_LINE_BYTES }
        ensures text { OnOk result ((start : W) (earlier : Taken) → W.stands start world.old earlier
            → length earlier ≡ self.old.events
            → line_of (W.play start) self.old.head earlier line.now ≡ Ok text.new.items) }
        ensures stands { OnOk result
            ((start : W) (earlier : Taken) → W.stands start world.old earlier
            → W.stands start world.new (line.now ∷ earlier)) }
        ensures end { IfErr result
            (λ end. (start : W) (earlier : Taken) → W.stands start world.old earlier
            → length earlier ≡ self.old.events
            → RefusesAt (line_of (W.play start) self.old.head)
            (W.wants start) earlier line.now end) }
        ensures kept { OnErr result
            ((start : W) (earlier : Taken) → W.stands start world.old earlier
            → W.stands start world.new earlier) }
        ensures counted { OnOk result (self.new.events ≡ self.old.events + 1) }
        ensures few { OnOk result (self.old.events < MOST_EVENTS) }
        ensures head { self.new.head ≡ self.old.head }
    {
        if self.events == MOST_EVENTS {
            return Err(self.bad_line(LineFault::TooMany));
        }
        world.take(line, text)?;
        self.events += 1;
        Ok(())
    }

    /// The end at a fault of the next line.
    fn bad_line(&self, fault: LineFault) -> ReplayEnd
        requires numbered { self.now.head < 2 ^ 63 }
        requires few { self.now.events ≤ MOST_EVENTS }
        ensures { (earlier : Taken) → length earlier ≡ self.now.events
            → result ≡ bad_line self.now.head earlier fault }
    {
        ReplayEnd::BadSchedule {
            line: self.head + self.events + 1,
            fault,
        }
    }

    /// The end of an input whose last end of a line these bytes follow.
    fn end_at(&self, rest: &[u8]) -> ReplayEnd
        requires numbered { self.now.head < 2 ^ 63 }
        requires few { self.now.events ≤ MOST_EVENTS }
        ensures { (earlier : Taken) → length earlier ≡ self.now.events
            → result ≡ end_at self.now.head earlier rest.now }
    {
        if rest.is_empty() {
            return ReplayEnd::Done {
                events: self.events,
            };
        }
        self.bad_line(LineFault::Unended)
    }
}
