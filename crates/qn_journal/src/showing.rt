//! What a running node shows and tells besides its lines: its status file, and what the others are told of it.
ghost use Rattle.std.specs.Prelude.{◌≡◌, List, true};
ghost use Rattle.qn_journal.specs.Hearing.{timeout_of, view_number};
ghost use Rattle.qn_live.specs.Machine.{Stands};
ghost use Rattle.qn_model.specs.Log.{Line};
ghost use Rattle.qn_model.specs.Holding.{holds};

use crate::arbiter::ArbiterNews;
use crate::group_file::group_of_file;
use crate::status::{NAMES, Seen, status_of};
use qn_base::{Rank, View};
use qn_event::Moment;
use qn_live::{NodeRun, Standing};
use qn_machine::{Lines, ReplacedFile};
use qn_model::Phase;
use qn_shown::Counts;
use qn_told::{Around, News, NodeNames, Telling};
use std::fs::File;
use std::rt::Files;
use std::time::Clock;

/// The most nodes.
const NODES: usize = 32;

/// How old a status becomes before it is written anew, in milliseconds.
const AGE: u64 = 500;

/// The status file of a node, and what it tells the others.
#[derive(Drop)]
pub(crate) struct Showing<'a, R: Files<File = File> + Clock + Eprint> {
    rt: &'a R,
    lines: &'a Lines,
    status: Option<ReplacedFile>,
    /// The path of the file in which the supervisor of the host's resources says how their group is.
    group: Option<&'a str>,
    names: NodeNames<'a>,
    pid: u32,
    telling: Telling,
    /// How many lines were said before the last status, and the tick of that.
    said: u64,
    written: Option<u64>,
    unwritten: u64,
    /// Whether the last status could not be written.
    is_failing: bool,
}

impl<'a, R: Files<File = File> + Clock + Eprint> Showing<'a, R> {
    ghost use Rattle.qn_journal.specs.Hearing.{IsAround};

    /// That of the process of that number, with that status file, with the file of that path in which the supervisor of the host's resources says
    /// how their group is, and with these names of the nodes.
    pub(crate) fn new(
        rt: &'a R,
        lines: &'a Lines,
        status: Option<ReplacedFile>,
        group: Option<&'a str>,
        names: NodeNames<'a>,
        pid: u32,
    ) -> Showing<'a, R> {
        Showing {
            rt,
            lines,
            status,
            group,
            names,
            pid,
            telling: Telling::new(),
            said: 0,
            written: None,
            unwritten: 0,
            is_failing: false,
        }
    }

    /// When a line is said that is said now.
    pub(crate) fn now(&self) -> Moment {
        self.lines.moment(self.rt)
    }

    /// The host's monotonic clock in milliseconds.
    pub(crate) fn monotonic(&self) -> Option<u64> {
        let time = self.rt.monotonic().ok()?;
        Some(u64::try_from(time.as_millis()).unwrap_or(u64::MAX))
    }

    /// What surrounds a call of the run, of which that is known, and which takes an entry in or not.
    pub(crate) fn around<'b>(&self, news: &News, run: &'b NodeRun, is_turn: bool) -> Around<'b>
    where
        'a: 'b,
        ensures { IsAround result run.now }
    {
        let voices = self.lines.voices();
        Around {
            at: self.now(),
            tick: run.tick(),
            nodes: &run.settings().nodes,
            names: self.names,
            me: run.rank(),
            loop_ms: run.loop_ms(),
            timeout: timeout_of(run),
            view: view_number(run.standing().view),
            lost: if is_turn {
                self.lost_network(news.greeted, run)
            } else {
                None
            },
            opened: if is_turn { voices.take_opened() } else { None },
        }
    }

    /// The network that is lost to the node whose Hello came, once the loop's time is known. Nothing of it changes before something of the node comes.
    fn lost_network(&self, greeted: Option<Rank>, run: &NodeRun) -> Option<u64> {
        if run.loop_ms() == 0 {
            return None;
        }
        self.lines.voices().set_loop(run.loop_ms());
        self.lines.voices().lost_network(usize::from(greeted?.0))
    }

    /// A turn began at that tick, of which that is known: has the others told, and writes the status where it is due.
    pub(crate) fn turn(&mut self, news: &News, tick: u64, run: &NodeRun) {
        self.tell_others(tick, run);
        if self.status.is_some() && self.is_due(news.lines, tick) {
            self.write(news, run, None);
        }
    }

    /// Has the others told how this node is, at once where it begins or ends to hold, and once a loop; then it is looked how its group is.
    fn tell_others(&mut self, tick: u64, run: &NodeRun) {
        let standing = shown_standing(run);
        if !self.telling.is_due(tick, run.loop_ms(), standing.holds) {
            return;
        }
        if let Some(path) = self.group {
            self.telling.group = group_of_file(self.rt, path, tick);
        }
        self.tell_standing(tick, &standing, false, run);
    }

    /// Has the others told how this node is, with the next packet at the latest.
    fn tell_standing(&mut self, tick: u64, standing: &Standing, has_left: bool, run: &NodeRun) {
        let is_leaving = has_left || matches!(standing.phase, Phase::Leaving);
        let quorate = standing.answer.quorate;
        let told = self
            .telling
            .telling(tick, standing.incarnation, is_leaving, quorate);
        if let Some(told) = told {
            let nodes = run.settings().nodes.len().min(NODES);
            self.lines.voices().tell(told, nodes as u8);
        }
    }

    /// Has the others told that this node has left, before its farewell: one that does not hold may come to its end within one turn.
    pub(crate) fn leave(&mut self, tick: u64, run: &NodeRun) {
        let standing = shown_standing(run);
        self.telling.is_due(tick, run.loop_ms(), standing.holds);
        self.tell_standing(tick, &standing, true, run);
    }

    /// Whether the status is to be written at that tick, before which so many lines were said: one was since the last status, or that is old.
    fn is_due(&mut self, said: u64, tick: u64) -> bool {
        let is_old = match self.written {
            Some(written) => tick >= written.saturating_add(AGE),
            None => true,
        };
        if self.said == said && !is_old {
            return false;
        }
        self.said = said;
        self.written = Some(tick);
        true
    }

    /// Writes the status of an arbiter, before which so many lines were said, where it is due.
    pub(crate) fn show_arbiter(&mut self, arbiter: &ArbiterNews, said: u64, tick: u64) {
        if self.status.is_some() && self.is_due(said, tick) {
            let text = arbiter.status(tick, self.lines.refused());
            self.put(text.as_slice());
        }
    }

    /// Writes the status of a node of which that is known, and which ended so, where it has.
    pub(crate) fn write(&mut self, news: &News, run: &NodeRun, end: Option<&[u8]>) {
        if self.status.is_none() {
            return;
        }
        let standing = shown_standing(run);
        let text = status_of(&Seen {
            at: self.now(),
            pid: self.pid,
            nodes: &run.settings().nodes,
            names: self.names,
            me: run.rank(),
            standing: &standing,
            loop_ms: run.loop_ms(),
            mailbox: &news.mailbox,
            peers: &news.peers,
            voices: self.lines.voices(),
            telling: &self.telling,
            device: &news.device,
            images: news.images.count(),
            timeout: timeout_of(run),
            counts: Counts {
                dropped: self.lines.dropped(),
                refused: news.refused.all(),
                unwritten: self.unwritten,
                late: news.late.all(),
            },
            end,
        });
        match text {
            Some(text) => self.put(text.as_slice()),
            None => self.unwritten = self.unwritten.saturating_add(1),
        }
    }

    /// Puts the text of a status into its file. The first of the writes that fail one after the other is told.
    fn put(&mut self, text: &[u8]) {
        let Some(file) = &self.status else {
            return;
        };
        match file.replace(self.rt, text) {
            Ok(()) => self.is_failing = false,
            Err(error) => {
                self.unwritten = self.unwritten.saturating_add(1);
                if !self.is_failing {
                    let errors = self.lines.over(self.rt);
                    let path = file.path();
                    let _ = eprintln!(&errors; "quorumd: {path}: {error}");
                }
                self.is_failing = true;
            }
        }
    }
}

/// The timeout of the quorum device in milliseconds; 0 where there is none.
fn timeout_of(run: &NodeRun) -> u64
    ensures { result ≡ timeout_of run.now.settings }
{
    match run.settings().device {
        Some(device) => device.timeout,
        None => 0,
    }
}

/// The number of a view, without whom it names; 0 where there is none.
fn view_number(view: Option<(u64, View)>) -> u64
    ensures { result ≡ view_number view }
{
    match view {
        Some((_, view)) => view.id % NAMES,
        None => 0,
    }
}

/// Where a node stands, as a status says it: one that has ended counts no votes, as a node that is off.
#[tactic(auto, unfolding(qn_model::specs::Holding::holds))]
fn shown_standing(run: &NodeRun) -> Standing
    ensures { (log : List Line)
        → Stands run.now log
        → result.holds ≡ true
        → holds log ≡ true }
{
    let standing = run.standing();
    let me = run.rank();
    if !matches!(standing.phase, Phase::Gone) || usize::from(me.0) >= run.settings().nodes.len() {
        return standing;
    }
    Standing {
        phase: standing.phase,
        incarnation: standing.incarnation,
        ..Standing::first(run.settings(), me)
    }
}
