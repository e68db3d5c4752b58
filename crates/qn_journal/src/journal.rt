//! The journal of a running node.
ghost use Rattle.std.specs.Prelude.{◌≡◌};
ghost use Rattle.qn_journal.specs.Hearing.{is_told};

use crate::arbiter::ArbiterNews;
use crate::ending::{end_text, is_fault};
use crate::showing::Showing;
use qn_leases::ArbiterNotices;
use qn_live::{Asked, Decoded, Given, LiveEnd, NodeRun, Notices};
use qn_machine::{Lines, ReplacedFile};
use qn_model::Settings;
use qn_safety::{Lease, Poll};
use qn_told::{NodeNames, Says, Teller, ended};
use std::fs::File;
use std::rt::Files;
use std::time::Clock;

/// Tells of a running node to whoever is told its lines, and in a status file where one is named. It changes nothing of the run, waits for
/// nobody, and what it cannot write is no fault.
#[derive(Drop)]
pub struct Journal<'a, R: Files<File = File> + Clock + Eprint, S: Says> {
    teller: Teller<S>,
    showing: Showing<'a, R>,
    arbiter: ArbiterNews,
    turns: u64,
}

impl<'a, R: Files<File = File> + Clock + Eprint, S: Says> Journal<'a, R, S> {
    ghost use Rattle.std.specs.Prelude.{◌≡◌};
    ghost use Rattle.qn_journal.specs.Hearing.{HearsCall, IsToldWhere, is_told};

    /// A journal by these lines, which are said there, of the process of that number, with that status file, with the file of that path in which
    /// the supervisor of the host's resources says how their group is, and with these names of the nodes.
    pub fn new(
        rt: &'a R,
        lines: &'a Lines,
        says: S,
        status: Option<ReplacedFile>,
        group: Option<&'a str>,
        names: NodeNames<'a>,
        pid: u32,
    ) -> Journal<'a, R, S> {
        Journal {
            teller: Teller::new(says),
            showing: Showing::new(rt, lines, status, group, names, pid),
            arbiter: ArbiterNews::new(),
            turns: 0,
        }
    }

    /// Tells the lines of a call, and takes what is known by it.
    fn hear(&mut self, asked: Asked, given: Given, decoded: Decoded, run: &NodeRun)
        ensures { HearsCall run.now decoded self.old.teller self.new.teller asked given }
    {
        self.tell(asked, given, run);
        self.teller.take(asked, given, decoded, run.tick());
    }

    /// Tells the lines of a call, where any are told of it.
    fn tell(&mut self, asked: Asked, given: Given, run: &NodeRun)
        ensures { IsToldWhere (is_told asked) asked given run.now self.old.teller self.new.teller }
    {
        if is_told(asked) {
            let is_turn = takes(asked, given, run);
            let around = self.showing.around(&self.teller.news, run, is_turn);
            self.teller.tell(&around, asked, given, run);
        }
    }

    /// Shows what is to be shown after a call, and has the others told.
    fn show(&mut self, asked: Asked, given: Given, run: &NodeRun)
        ensures { self.new.teller ≡ self.old.teller }
    {
        if takes(asked, given, run) {
            self.turns = self.turns.saturating_add(1);
            self.showing.turn(&self.teller.news, given.tick, run);
        }
        if matches!(asked, Asked::Disarm) && given.ok {
            self.showing.leave(given.tick, run);
        }
    }
}

impl<'a, R: Files<File = File> + Clock + Eprint, S: Says> Notices for Journal<'a, R, S> {
    ghost use Rattle.qn_journal.specs.Hearing.{Hears, HearsCall, HearsEnd};

    ghost hears = { λ before after asked given. Hears before.teller after.teller asked given };

    ghost hears_end = { λ before after end. HearsEnd before.teller after.teller end };

    fn made(&mut self, asked: Asked, given: Given, decoded: Decoded, run: &NodeRun)
        ensures call { HearsCall run.now decoded self.old.teller self.new.teller asked given }
        ensures hears { Hears self.old.teller self.new.teller asked given }
    {
        self.hear(asked, given, decoded, run);
        self.show(asked, given, run);
    }

    fn ended(&mut self, end: LiveEnd, run: &NodeRun) {
        let text = end_text(end, self.turns);
        let line = ended(self.showing.now(), text.as_slice(), is_fault(end));
        self.teller.say(&line);
        self.showing
            .write(&self.teller.news, run, Some(text.as_slice()));
    }
}

/// Whether the run took an entry in at this call: a look at the clock that did not go back.
fn takes(asked: Asked, given: Given, run: &NodeRun) -> bool {
    matches!(asked, Asked::Now) && given.tick == run.tick()
}

/// Whether lines are told of a call at once: of a look at the clock, and of what the agent and the watchdog answer.
fn is_told(asked: Asked) -> bool
    ensures { result ≡ is_told asked }
{
    match asked {
        Asked::Now | Asked::Start | Asked::Stop | Asked::Disarm => true,
        Asked::Receive
        | Asked::Read { .. }
        | Asked::Write { .. }
        | Asked::Feed
        | Asked::Send { .. }
        | Asked::Halt { .. } => false,
    }
}

impl<'a, R: Files<File = File> + Clock + Eprint, S: Says> ArbiterNotices for Journal<'a, R, S> {
    fn began(&mut self, settings: &Settings, times: Lease) {
        self.arbiter.begin(&settings.nodes, times);
    }

    fn booted(&mut self, tick: u64) {
        let line = self.arbiter.boot(self.showing.now(), tick);
        self.teller.say(&line);
        self.showing
            .show_arbiter(&self.arbiter, self.teller.news.lines, tick);
    }

    fn answered(&mut self, tick: u64, poll: &Poll, agrees: bool) {
        let at = self.showing.now();
        if let Some(line) = self.arbiter.answer(at, tick, poll, agrees) {
            self.teller.say(&line);
        }
        self.showing
            .show_arbiter(&self.arbiter, self.teller.news.lines, tick);
    }

    fn waited(&mut self) {
        if let Some(tick) = self.showing.monotonic() {
            self.showing
                .show_arbiter(&self.arbiter, self.teller.news.lines, tick);
        }
    }
}
