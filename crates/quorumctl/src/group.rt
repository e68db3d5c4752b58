//! `group`: the step of the resources of a host, for the supervisor whose child this program is. It reads a line for each event, and tells a line for each thing
//! that is to be done. How a line is spelled is said by `qn_supervisor`, what is to be done by `qn_group`.
use crate::trouble::Trouble;
use arrayvec::ArrayVec;
use qn_io::{LINE, LineRead, Pieces, Sink, Source, put_all, read_line};
use qn_machine::{StdSink, StdSource};
use qn_model::LineFault;
use qn_supervisor::{Refused, Steps};
use qn_usage::WRITE_FAULT;
use std::io;

/// The status where standard input cannot be read, of which a line on standard error says why.
const READ_FAULT: u8 = 6;

/// What ends the reading before its input does.
enum Stopped {
    Input,
    Output,
    /// The line of that number is at fault.
    Line(u64, Refused),
}

/// `group`: reads until the input ends. A line at fault ends it: nothing is done at that line, and nothing is told.
pub fn group(rt: &(impl Input + Print + Eprint + AllocGlobal)) -> Result<u8, Trouble> {
    let mut input = StdSource::new(rt.reader(), rt);
    let mut out = StdSink::new(io::writer(rt), rt);
    match take_lines(&mut input, &mut out) {
        Ok(()) => Ok(0),
        Err(Stopped::Input) => Ok(READ_FAULT),
        Err(Stopped::Output) => Ok(WRITE_FAULT),
        Err(Stopped::Line(number, refused)) => Err(Trouble::Line(number, refused.name())),
    }
}

fn take_lines<I: Source, O: Sink>(input: &mut I, out: &mut O) -> Result<(), Stopped> {
    let mut steps = Steps::new();
    let mut pieces = Pieces::new();
    let mut line = ArrayVec::<u8, LINE>::new();
    for number in 1..u64::MAX {
        let refused = match read_line(&mut pieces, input, &mut line) {
            LineRead::Line => match steps.take(line.as_slice()) {
                Ok(told) => {
                    if put_all(out, told.as_slice()).is_err() {
                        return Err(Stopped::Output);
                    }
                    continue;
                }
                Err(refused) => refused,
            },
            LineRead::Rest if line.is_empty() => return Ok(()),
            LineRead::Rest => Refused::Line(LineFault::Unended),
            LineRead::TooLong => Refused::Line(LineFault::TooLong),
            LineRead::Failed => return Err(Stopped::Input),
        };
        return Err(Stopped::Line(number, refused));
    }
    Ok(())
}
