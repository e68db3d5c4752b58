//! `count`: the votes of views, by plain majority.
ghost use Rattle.std.specs.Prelude.{◌≡◌, ◌≤◌, ◌+◌};
ghost use Rattle.qn_model.specs.CountText.{end_of_input};
ghost use Rattle.qn_model.specs.Lines.{Ended, bad_line, read_fault};
ghost use Rattle.qn_commands.specs.Commands.Count.{Counts};
ghost use Rattle.qn_commands.specs.CountTurns.{JudgesLine, counting};
ghost use Rattle.qn_commands.specs.Endings.{Answers};
ghost use Rattle.qn_commands.specs.Seen.{Outside, seen, sink, source};
ghost use Rattle.qn_commands.specs.Statuses.{code_of};

use crate::counter::Counter;
use crate::status::Status;
use arrayvec::ArrayVec;
use qn_base::{Failed, ShortText};
use qn_io::{LINE, LineRead, NextLine, PIECE, Pieces, Sink, Source, read_line};
use qn_model::LineFault;
use qn_playback::Output;

/// The end of a run: writes what waits and then this text, and answers the status, or WriteFault where the
/// sink failed.
pub fn finish<O: Sink>(output: &mut Output, out: &mut O, text: &ShortText, status: Status) -> Status
    ensures answers { Answers output.old text.now (code_of status)
        (sink O.written O.faults out.old) (sink O.written O.faults out.new) (code_of result) }
    ensures never_falls { O.faults out.old ≤ O.faults out.new }
{
    let Ok(()) = output.put(out, text.as_slice()) else {
        return Status::WriteFault;
    };
    let Ok(()) = output.flush(out) else {
        return Status::WriteFault;
    };
    status
}

/// The end of an input after whose last end of a line these bytes are.
#[tactic(auto, unfolding(qn_model::specs::CountText::end_of_input))]
fn end<O: Sink>(counter: &Counter, rest: &[u8], output: &mut Output, out: &mut O) -> Status
    ensures answers { let wanted = end_of_input counter.now Ended rest.now in
        Answers output.old wanted.text wanted.status
        (sink O.written O.faults out.old) (sink O.written O.faults out.new) (code_of result) }
    ensures never_falls { O.faults out.old ≤ O.faults out.new }
{
    if !rest.is_empty() {
        return end_at_fault(counter, LineFault::Unended, output, out);
    }
    let text = counter.end_text();
    finish(output, out, &text, Status::Done)
}

/// The end at a fault of the line after the good ones.
fn end_at_fault<O: Sink>(
    counter: &Counter,
    fault: LineFault,
    output: &mut Output,
    out: &mut O,
) -> Status
    ensures answers { Answers output.old (bad_line (counter.now.lines + 1) fault).text 4
        (sink O.written O.faults out.old) (sink O.written O.faults out.new) (code_of result) }
    ensures never_falls { O.faults out.old ≤ O.faults out.new }
{
    let text = counter.fault_text(fault);
    finish(output, out, &text, Status::BadSchedule)
}

/// The end of an input of which a read failed.
fn end_unread<O: Sink>(output: &mut Output, out: &mut O) -> Status
    ensures answers { Answers output.old read_fault.text 6
        (sink O.written O.faults out.old) (sink O.written O.faults out.new) (code_of result) }
    ensures never_falls { O.faults out.old ≤ O.faults out.new }
{
    let mut text = ShortText::new();
    text.add(b"fault ReadFault\n");
    finish(output, out, &text, Status::ReadFault)
}

/// Judges a whole line: takes it in and gives out its text, or ends the run at its fault.
fn take_line<O: Sink>(
    counter: &mut Counter,
    line: &[u8],
    output: &mut Output,
    out: &mut O,
) -> Option<Status>
    ensures judges { JudgesLine result line.now
        (counting counter.old output.old (sink O.written O.faults out.old))
        (counting counter.new output.new (sink O.written O.faults out.new)) }
    ensures never_falls { O.faults out.old ≤ O.faults out.new }
{
    let good = match counter.judge(line) {
        Ok(good) => good,
        Err(fault) => return Some(end_at_fault(counter, fault, output, out)),
    };
    let Ok(()) = output.make_room(out) else {
        return Some(Status::WriteFault);
    };
    counter.write_line(&good, output);
    counter.add(good);
    None
}

/// A run of `count`: what it counted so far, the bytes that were read and not yet handed out, the line that
/// was read last, and the text that waits to be written.
#[derive(Drop)]
struct Run {
    counter: Counter,
    pieces: Pieces,
    line: ArrayVec<u8, LINE>,
    output: Output,
}

impl Run {
    ghost use Rattle.std.specs.Prelude.{◌<◌, [], OnErr, OnOk, drop, length, take};
    ghost use Rattle.qn_io.specs.Outside.{HasRisen};
    ghost use Rattle.qn_io.specs.Writes.{AppendsFront};
    ghost use Rattle.qn_model.specs.CountText.{nothing_counted};
    ghost use Rattle.qn_commands.specs.CountTurns.{Turns, coming};
    ghost use Rattle.qn_playback.specs.Writing.{GivesOut};

    fn new() -> Self
        ensures counter { result.counter ≡ nothing_counted }
        ensures pieces { result.pieces ≡ [] }
        ensures output { result.output ≡ [] }
    {
        Run {
            counter: Counter::new(),
            pieces: Pieces::new(),
            line: ArrayVec::new(),
            output: Output::new(),
        }
    }

    /// Reads and judges the next line: the run goes on, or it ends with a status. What waits to be written
    /// is written before a read that may have to wait for input.
    fn turn<I: Source, O: Sink>(&mut self, input: &mut I, out: &mut O) -> Option<Status>
        ensures turns { let first = coming self.old.pieces (source I.left I.faults input.old) in
            let next = coming self.new.pieces (source I.left I.faults input.new) in
            let before = counting self.old.counter self.old.output
            (sink O.written O.faults out.old) in
            let later = counting self.new.counter self.new.output
            (sink O.written O.faults out.new) in
            Turns result first next before later }
        ensures within { length self.new.pieces ≤ PIECE }
        ensures source_faults { I.faults input.old ≤ I.faults input.new }
        ensures sink_faults { O.faults out.old ≤ O.faults out.new }
    {
        if let Some(count) = self.pieces.first_line() {
            return self.judge_waiting(count, out);
        }
        let Ok(()) = self.flush(out) else {
            return Some(Status::WriteFault);
        };
        self.next_line(input, out)
    }

    /// Judges the first line that waits whole, of so many bytes, where it stands; it is then passed over.
    fn judge_waiting<O: Sink>(&mut self, count: usize, out: &mut O) -> Option<Status>
        requires waits { count < length self.old.pieces }
        requires room { length self.old.pieces ≤ PIECE }
        ensures judges { JudgesLine result (take count self.old.pieces)
            (counting self.old.counter self.old.output (sink O.written O.faults out.old))
            (counting self.new.counter self.new.output (sink O.written O.faults out.new)) }
        ensures pieces { self.new.pieces ≡ drop (count + 1) self.old.pieces }
        ensures within { length self.new.pieces ≤ PIECE }
        ensures never_falls { O.faults out.old ≤ O.faults out.new }
    {
        let line = NextLine::Waits(count).text(&self.pieces, &self.line);
        let judged = take_line(&mut self.counter, line, &mut self.output, out);
        self.pieces.pass_over(count + 1);
        judged
    }

    /// Writes what waits. At `Failed` a prefix of it was written.
    fn flush<O: Sink>(&mut self, out: &mut O) -> Result<(), Failed>
        ensures given { OnOk result (GivesOut (O.written out.old) (O.written out.new)
            self.new.output self.old.output) }
        ensures empty { OnOk result (self.new.output ≡ []) }
        ensures prefix { OnErr result (AppendsFront (O.written out.old) (O.written out.new)
            self.old.output) }
        ensures counter { self.new.counter ≡ self.old.counter }
        ensures pieces { self.new.pieces ≡ self.old.pieces }
        ensures never_falls { O.faults out.old ≤ O.faults out.new }
        ensures cause { OnErr result (HasRisen (O.faults out.old) (O.faults out.new)) }
    {
        self.output.flush(out)
    }

    /// Reads and judges the next line, where nothing waits to be written when more is read.
    fn next_line<I: Source, O: Sink>(&mut self, input: &mut I, out: &mut O) -> Option<Status>
        requires { self.old.output ≡ [] }
        ensures turns { let first = coming self.old.pieces (source I.left I.faults input.old) in
            let next = coming self.new.pieces (source I.left I.faults input.new) in
            let before = counting self.old.counter self.old.output
            (sink O.written O.faults out.old) in
            let later = counting self.new.counter self.new.output
            (sink O.written O.faults out.new) in
            Turns result first next before later }
        ensures within { length self.new.pieces ≤ PIECE }
        ensures source_faults { I.faults input.old ≤ I.faults input.new }
        ensures sink_faults { O.faults out.old ≤ O.faults out.new }
    {
        let read = read_line(&mut self.pieces, input, &mut self.line);
        let line = self.line.as_slice();
        match read {
            LineRead::Line => take_line(&mut self.counter, line, &mut self.output, out),
            LineRead::Rest => Some(end(&self.counter, line, &mut self.output, out)),
            LineRead::TooLong => Some(end_at_fault(
                &self.counter,
                LineFault::TooLong,
                &mut self.output,
                out,
            )),
            LineRead::Failed => Some(end_unread(&mut self.output, out)),
        }
    }
}

/// `count`: writes the votes of the views of the input, line after line. No memory is taken.
#[inline(never)]
pub fn count<I: Source, O: Sink>(input: &mut I, out: &mut O) -> Status
    ensures { (env : Outside) →
        let before = seen (source I.left I.faults input.old)
        (sink O.written O.faults out.old) env in
        let after = seen (source I.left I.faults input.new)
        (sink O.written O.faults out.new) env in
        Counts before after (code_of result) }
{
    let mut run = Run::new();
    'turns: loop {
        if let Some(status) = run.turn(input, out) {
            return status;
        }
    }
}
