//! The lines of an input, read on only after what waits to be written was written.
ghost use Rattle.std.specs.Prelude.{◌≡◌, ◌≤◌, [], ◌∷◌, ◌++◌, drop, length, OnOk, OnErr, IfOk};
ghost use Rattle.std.specs.Io.KnownBytes.{append_known, prepend_known};
ghost use Rattle.qn_io.specs.Lines.{HasNoLineFeed, IsDrainedLine, OnFailedLine, ReadsLine};
ghost use Rattle.qn_io.specs.NextLines.{own_count, read_of, text_of};
ghost use Rattle.qn_io.specs.Outside.{HasRisen};
ghost use Rattle.qn_io.specs.Writes.{AppendsFront};
ghost use Rattle.qn_playback.specs.Writing.{GivesOut};

use crate::output::Output;
use arrayvec::ArrayVec;
use qn_base::Failed;
use qn_io::{LINE, LineRead, NextLine, PIECE, Pieces, Sink, Source, read_line};

/// The lines of an input, one after the other: the bytes that were read and not yet handed out, the last line that did
/// not wait whole among them, and the text that waits to be written until more is read.
#[derive(Drop)]
pub(crate) struct Lines {
    pieces: Pieces,
    line: ArrayVec<u8, LINE>,
    pub output: Output,
}

impl Lines {
    /// The lines after these pieces.
    pub(crate) fn new(pieces: Pieces, output: Output) -> Lines
        ensures pieces { result.pieces ≡ pieces }
        ensures output { result.output ≡ output }
    {
        Lines {
            pieces,
            line: ArrayVec::new(),
            output,
        }
    }

    /// The next line, without its end, as `next` found it.
    pub(crate) fn text(&self, next: NextLine) -> &[u8]
        requires waits { own_count next ≤ length self.now.pieces }
        requires short { length (text_of next self.now.pieces self.now.line.items) ≤ LINE }
        ensures value { result.now ≡ text_of next self.now.pieces self.now.line.items }
        ensures fits { length result.now ≤ LINE }
    {
        next.text(&self.pieces, &self.line)
    }

    /// Passes over the bytes of the next line that wait, with its end.
    pub(crate) fn pass_over(&mut self, next: NextLine)
        requires waits { own_count next ≤ length self.old.pieces }
        requires within { length self.old.pieces ≤ PIECE }
        ensures passed { self.new.pieces ≡ drop (own_count next) self.old.pieces }
        ensures output { self.new.output ≡ self.old.output }
    {
        self.pieces.pass_over(next.own_count());
    }

    /// Finds the next line; before the call after it, its bytes are to be passed over. It is left where it stands where it
    /// waits whole. Where no whole line waits, all text that waits is written before more of the input is read; at
    /// `Failed` a prefix of it was written, and nothing was read.
    pub(crate) fn next<I: Source, O: Sink>(
        &mut self,
        input: &mut I,
        out: &mut O,
    ) -> Result<NextLine, Failed>
        ensures reads { IfOk result (λ next. ReadsLine (read_of next)
            (text_of next self.new.pieces self.new.line.items)
            (prepend_known self.old.pieces (I.left input.old))
            (prepend_known (drop (own_count next) self.new.pieces) (I.left input.new))) }
        ensures unended { IfOk result
            (λ next. HasNoLineFeed (text_of next self.new.pieces self.new.line.items)) }
        ensures short { IfOk result
            (λ next. length (text_of next self.new.pieces self.new.line.items) ≤ LINE) }
        ensures waits { IfOk result (λ next. own_count next ≤ length self.new.pieces) }
        ensures drained { IfOk result (λ next. IsDrainedLine (read_of next) self.new.pieces) }
        ensures read_failed { IfOk result
            (λ next. OnFailedLine (read_of next) (HasRisen (I.faults input.old) (I.faults input.new))) }
        ensures given { OnOk result
            (GivesOut (O.written out.old) (O.written out.new) self.new.output self.old.output) }

        ensures kept { OnErr result
            (prepend_known self.new.pieces (I.left input.new)
            ≡ prepend_known self.old.pieces (I.left input.old)) }
        ensures prefix { OnErr result
            (AppendsFront (O.written out.old) (O.written out.new) self.old.output) }
        ensures write_failed { OnErr result (HasRisen (O.faults out.old) (O.faults out.new)) }

        ensures within { length self.new.pieces ≤ PIECE }
        ensures source_faults { I.faults input.old ≤ I.faults input.new }
        ensures sink_faults { O.faults out.old ≤ O.faults out.new }
    {
        if let Some(count) = self.pieces.first_line() {
            return Ok(NextLine::Waits(count));
        }
        self.output.flush(out)?;
        Ok(NextLine::Copied(self.read(input)))
    }

    /// Reads on up to the end of the next line, where nothing waits to be written.
    fn read<I: Source>(&mut self, input: &mut I) -> LineRead
        requires { self.old.output ≡ [] }
        ensures reads { ReadsLine result self.new.line.items
            (prepend_known self.old.pieces (I.left input.old))
            (prepend_known self.new.pieces (I.left input.new)) }
        ensures unended { HasNoLineFeed self.new.line.items }
        ensures short { length self.new.line.items ≤ LINE }
        ensures drained { IsDrainedLine result self.new.pieces }
        ensures within { length self.new.pieces ≤ PIECE }
        ensures read_failed { OnFailedLine result
            (HasRisen (I.faults input.old) (I.faults input.new)) }
        ensures never_falls { I.faults input.old ≤ I.faults input.new }
        ensures output { self.new.output ≡ [] }
    {
        let read = read_line(&mut self.pieces, input, &mut self.line);
        prove!(self.line.len() <= LINE);
        read
    }
}
