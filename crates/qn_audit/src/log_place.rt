//! Where an audit stands in a log, and what the next line comes to.
ghost use Rattle.std.specs.Prelude.{◌≡◌, ◌≤◌, ◌<◌, ◌^◌};

use crate::audit_end::AuditEnd;
use crate::auditor::{Auditor, Verdict};
use crate::log_line::{looks_at_clock, read_call};
use qn_io::LineRead;
use qn_live::Room;
use qn_model::LineFault;

/// The most lines of a log.
pub const MOST_LOG_LINES: u64 = 2_000_000;

/// How many lines the head of an input had, how many lines of the log were taken, and how many of these began a turn.
#[derive(Clone, Copy)]
pub(crate) struct LogPlace {
    head: u64,
    lines: u64,
    turns: u64,
    ghost numbered: { head < 2 ^ 63 },
    ghost few: { lines ≤ 2000000 },
    ghost turns_within: { turns ≤ lines },
}

impl LogPlace {
    ghost use Rattle.std.specs.Prelude.{◌+◌, length, OnOk, IfErr};
    ghost use Rattle.qn_base.specs.Plans.{Plan};
    ghost use Rattle.qn_live.specs.Running.{Ran};
    ghost use Rattle.qn_audit.specs.Auditing.{IsJudging, StandsFor, end_at};
    ghost use Rattle.qn_audit.specs.Taking.{EndsHere, Takes, standing};

    /// Before the first line of the log.
    pub(crate) fn new(head: u64) -> LogPlace
        requires { head < 2 ^ 63 }
        ensures head { result.head ≡ head }
        ensures lines { result.lines ≡ 0 }
        ensures turns { result.turns ≡ 0 }
    {
        LogPlace {
            head,
            lines: 0,
            turns: 0,
        }
    }

    /// What comes of the bytes that were read of a line: it is taken as the next call, or the audit ends. The bytes of its
    /// call are put into the room.
    pub(crate) fn judge(
        &mut self,
        auditor: &mut Auditor,
        read: LineRead,
        line: &[u8],
        room: &mut Room,
    ) -> Result<(), AuditEnd>
        requires judging { IsJudging auditor.old }
        requires short { length line.now ≤ 4096 }
        ensures takes { OnOk result
            ((read ≡ LineRead.Line) × Takes self.old self.new auditor.old auditor.new line.now) }
        ensures end { IfErr result (λ end. (plan : Plan Ran)
            → StandsFor auditor.old plan
            → EndsHere read end (standing self.old plan) line.now) }
    {
        match read {
            LineRead::Line => self.take(auditor, line, room),
            LineRead::Rest => Err(self.end_at(auditor, line)),
            LineRead::TooLong => Err(self.bad_line(LineFault::TooLong)),
            LineRead::Failed => Err(AuditEnd::ReadFault),
        }
    }

    /// Takes a whole line as the next call.
    fn take(&mut self, auditor: &mut Auditor, line: &[u8], room: &mut Room) -> Result<(), AuditEnd>
        requires judging { IsJudging auditor.old }
        requires short { length line.now ≤ 4096 }
        ensures takes { OnOk result (Takes self.old self.new auditor.old auditor.new line.now) }
        ensures end { IfErr result (λ end. (plan : Plan Ran)
            → StandsFor auditor.old plan
            → EndsHere LineRead.Line end (standing self.old plan) line.now) }
    {
        if self.lines == MOST_LOG_LINES {
            return Err(self.bad_line(LineFault::TooMany));
        }
        let call = match read_call(line, room) {
            Ok(call) => call,
            Err(fault) => return Err(self.bad_line(fault)),
        };
        let Ok(()) = auditor.take(call, room) else {
            return Err(AuditEnd::NotARun {
                line: self.next_line(),
            });
        };
        self.lines += 1;
        if looks_at_clock(call) {
            self.turns += 1;
        }
        Ok(())
    }

    /// The end of a log whose last end of a line these bytes follow.
    fn end_at(&self, auditor: &mut Auditor, rest: &[u8]) -> AuditEnd
        requires judging { IsJudging auditor.old }
        ensures { (plan : Plan Ran)
            → StandsFor auditor.old plan
            → result ≡ end_at (standing self.now plan) rest.now }
    {
        if !rest.is_empty() {
            return self.bad_line(LineFault::Unended);
        }
        match auditor.verdict() {
            Verdict::Whole(_) => AuditEnd::Whole { turns: self.turns },
            Verdict::Prefix => AuditEnd::Prefix { turns: self.turns },
        }
    }

    fn bad_line(&self, fault: LineFault) -> AuditEnd
        ensures { result ≡ AuditEnd.BadSchedule (self.now.head + self.now.lines + 1) fault }
    {
        AuditEnd::BadSchedule {
            line: self.next_line(),
            fault,
        }
    }

    /// The number of the next line in the whole input, from 1.
    fn next_line(&self) -> u64
        ensures { result ≡ self.now.head + self.now.lines + 1 }
    {
        self.head + self.lines + 1
    }
}
