//! The datagrams that were not handed to the node, which a line on standard error says at most once a minute.
ghost use Rattle.std.specs.Prelude.{◌≡◌, ◌+◌, nat_lt};
ghost use Rattle.qn_machine.specs.JournalLines.{all_refused, refusals_line};
ghost use Rattle.qn_machine.specs.Refusals.{counted, is_due, is_minute_ago, refusals_after};

use crate::error_lines::Lines;
use qn_event::{EventLine, EventName, Level, Moment};
use qn_peers::Reason;
use qn_seal::Refused;
use std::time::Clock;

/// How long no second line is said, in milliseconds.
const BETWEEN_LINES: u64 = 60_000;

/// How many datagrams were not handed on since the last line, and when that was said.
#[derive(Clone, Copy, Default)]
pub(crate) struct Refusals {
    unsealed: u64,
    astray: u64,
    stale: u64,
    elsewhere: u64,
    said: Option<u64>,
}

impl Refusals {
    /// Counts one more.
    pub(crate) fn count(&mut self, reason: Reason)
        ensures { self.new ≡ counted self.old reason }
    {
        match reason {
            Reason::Elsewhere => self.elsewhere = self.elsewhere.saturating_add(1),
            Reason::Sealed(Refused::Unsealed) => self.unsealed = self.unsealed.saturating_add(1),
            Reason::Sealed(Refused::Astray) => self.astray = self.astray.saturating_add(1),
            Reason::Sealed(Refused::Old) => self.stale = self.stale.saturating_add(1),
        }
    }

    /// Whether there is something to say, and the last line is a minute ago.
    fn is_due(&self, tick: u64) -> bool
        ensures { result ≡ is_due self.now tick }
    {
        self.has_any() && self.is_minute_ago(tick)
    }

    /// Whether any were counted since the last line.
    fn has_any(&self) -> bool
        ensures { result ≡ nat_lt 0
            (self.now.unsealed + self.now.astray + self.now.stale + self.now.elsewhere) }
    {
        self.unsealed > 0 || self.astray > 0 || self.stale > 0 || self.elsewhere > 0
    }

    /// Whether the last line is a minute ago, or there was none.
    fn is_minute_ago(&self, tick: u64) -> bool
        ensures { result ≡ is_minute_ago self.now.said tick }
    {
        match self.said {
            None => true,
            Some(said) => tick >= said && tick - said >= BETWEEN_LINES,
        }
    }

    /// How many there were, at most the greatest u64.
    fn all(&self) -> u64
        ensures { result ≡ all_refused self.now }
    {
        self.unsealed
            .saturating_add(self.astray)
            .saturating_add(self.stale)
            .saturating_add(self.elsewhere)
    }

    /// How many there were, and why.
    fn line(&self, at: Moment) -> EventLine
        ensures { result ≡ refusals_line at self.now }
    {
        let mut line = EventLine::new(at, Level::Warning, EventName::PacketsRefused);
        line.number(b"count", self.all());
        line.number(b"unsealed", self.unsealed);
        line.number(b"astray", self.astray);
        line.number(b"old", self.stale);
        line.number(b"elsewhere", self.elsewhere);
        line
    }

    /// Says how many there were, where a line is due, and counts anew from then on.
    pub(crate) fn say<R: Clock + Eprint>(&mut self, rt: &R, lines: &Lines, tick: u64)
        ensures { self.new ≡ refusals_after self.old tick }
    {
        if !self.is_due(tick) {
            return;
        }
        let line = self.line(lines.moment(rt));
        lines.say(rt, &line);
        *self = Refusals {
            said: Some(tick),
            ..Refusals::default()
        };
    }
}
