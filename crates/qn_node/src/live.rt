//! A node that takes part: its parts, and how one entry is taken in by each.
use crate::own::Own;
use crate::resource::Resource;
use crate::rest::Rest;
use crate::tally::Tally;
use qn_boot::Ready;
use qn_fence::Fence;
use qn_heard::Heard;
use qn_model::{DiskOp, Entry, HaltKind, MailSeen, Message, Out, Outs, Phase, VoteWhat, What};
use qn_watch::{Verdict, Watch};

/// A node that takes part in the cluster. Ticks are milliseconds of the node's clock.
#[derive(Drop)]
pub struct Live {
    /// Whether it is leaving; else it is up.
    leaving: bool,
    incarnation: u64,
    loop_ms: u64,
    /// The disk operation that is out.
    op: Option<DiskOp>,
    resource: Resource,
    watch: Watch,
    fence: Fence,
    heard: Heard,
}

/// How the step of a node that takes part goes on.
#[derive(Clone, Copy)]
pub enum Course {
    /// A deadly message was read: the node halts.
    Halt(Message),
    /// The own slot was to be marked as clean, and that was answered: the node ends.
    End,
    /// The node acts: whether it feeds its watchdog, and whether it is leaving from now on.
    Act { feeds: bool, leaving: bool },
}

impl Live {
    ghost use Rattle.std.specs.Prelude.{◌≡◌, ◌≤◌, ◌<◌, ◌+◌, ◌∷◌, [], ℕ, List, Bool, None, Some, true, false, if◌then◌else◌};
    ghost use Rattle.qn_model.specs.declared.configuration.Settings.{Settings};
    ghost use Rattle.qn_model.specs.declared.entries.What.{What};
    ghost use Rattle.qn_model.specs.declared.outputs.DiskOp.{DiskOp};
    ghost use Rattle.qn_model.specs.Log.{Line, ask_place, claim_of, disk_of, is_answer, now, op_out, timing};
    ghost use Rattle.qn_model.specs.Fitting.{answers_op};
    ghost use Rattle.qn_model.specs.NodeOutputs.{newest_outs, with_entry, with_read};
    ghost use Rattle.qn_model.specs.NodeVotes.{vote_of, votes};
    ghost use Rattle.qn_model.specs.Phases.{phase};
    ghost use Rattle.qn_model.specs.Wanted.{mail_tick};
    ghost use Rattle.qn_boot.specs.Boot.{ReadyFor};
    ghost use Rattle.qn_fence.specs.Fence.{FenceFor, IsAskedInside};
    ghost use Rattle.qn_heard.specs.Heard.{HeardBefore, HeardFor, installs_of};
    ghost use Rattle.qn_watch.specs.Watch.{WatchFor};
    ghost use Rattle.qn_node.specs.Live.{LiveFor, course_of, fits_live, is_boot_entry, live_phase};
    ghost use Rattle.qn_node.specs.Stage.{StageFor, installs_in, stage_after};
    ghost use Rattle.qn_node.specs.Resource.{after_entry, is_held};
    ghost use Rattle.qn_node.specs.Tally.{TallyFor};

    /// A node whose boot has just ended well.
    pub fn new(own: &Own, ready: Ready) -> Self
        ensures none { installs_of result.heard ≡ 0 }
        ensures stands { (log : List Line) (ok : Bool)
            → timing log ≡ ready.timing
            → mail_tick log ≡ 0
            → IsAskedInside log
            → ReadyFor own.now.settings ready
            (with_read own.now.settings own.now.me.0 log ready.tick (What.Cleared ok))
            → LiveFor result own.now.settings own.now.me.0
            (with_read own.now.settings own.now.me.0 log ready.tick (What.Cleared ok)) }
    {
        let mut watch = Watch::new(ready.timing);
        watch.issued(ready.tick);
        Live {
            leaving: false,
            incarnation: ready.incarnation,
            loop_ms: ready.timing.loop_ms,
            op: Some(DiskOp::ReadMail),
            resource: Resource::Free,
            watch,
            fence: Fence::new(&own.settings, own.me, ready.timing.msgwait),
            heard: Heard::new(own.me, ready.incarnation, ready.timing.loop_ms),
        }
    }

    /// Takes an entry in, and gives its outputs. Where nothing comes of the node from then on, that is handed out.
    pub fn step(
        &mut self,
        own: &Own,
        tally: &mut Tally,
        entry: Entry,
        outs: &mut Outs,
    ) -> Option<Rest>
        requires few { installs_of self.old.heard < u64.MAX }
        requires few_counted { tally.old.installs < u64.MAX }
        requires empty { outs.old ≡ [] }
        ensures few { installs_in (stage_after self.new result) ≤ installs_of self.old.heard + 1 }
        ensures few_counted { tally.new.installs ≤ tally.old.installs + 1 }
        ensures counts { (log : List Line)
            → LiveFor self.old own.now.settings own.now.me.0 log
            → TallyFor tally.old own.now.settings (votes log)
            → TallyFor tally.new own.now.settings
            (votes (with_entry own.now.settings own.now.me.0 log entry)) }
        ensures stands { (log : List Line)
            → LiveFor self.old own.now.settings own.now.me.0 log
            → TallyFor tally.old own.now.settings (votes log)
            → now log ≤ entry.tick
            → StageFor (stage_after self.new result) own.now.settings own.now.me.0
            (with_entry own.now.settings own.now.me.0 log entry) }
        ensures outs { (log : List Line)
            → LiveFor self.old own.now.settings own.now.me.0 log
            → TallyFor tally.old own.now.settings (votes log)
            → now log ≤ entry.tick
            → outs.new ≡ newest_outs (with_entry own.now.settings own.now.me.0 log entry) }
    {
        let tick = entry.tick;
        let what = self.read(own, entry.what);
        let course = self.course(tick, what);
        let vote = self.hear(tick, what);
        tally.count(own, tick, vote);
        self.settle(tick, what);
        match course {
            Course::Halt(message) => {
                outs.push(Out::Halt(HaltKind::Deadly(message)));
                Some(self.rest(Phase::Dying))
            }
            Course::End => {
                outs.push(Out::Disarm);
                Some(self.rest(Phase::Gone))
            }
            Course::Act { feeds, leaving } => {
                self.leaving = leaving;
                self.act(own, tally, tick, what, feeds, outs);
                None
            }
        }
    }

    /// An entry as it is read: one that does not fit is a Tick.
    fn read(&self, own: &Own, what: What) -> What
        ensures { result
            ≡ (if fits_live own.now.settings own.now.me.0 self.now what then what else What.Tick) }
    {
        if self.fits(own, what) {
            what
        } else {
            What::Tick
        }
    }

    fn fits(&self, own: &Own, what: What) -> bool
        ensures { result ≡ fits_live own.now.settings own.now.me.0 self.now what }
    {
        match what {
            What::Begin | What::BeginClean => false,
            What::View(view) => own.is_own_view(view),
            What::Ask(ask) => own.is_for(ask.from, ask.to),
            What::Tell(tell) => own.is_for(tell.from, tell.to),
            What::Device(_) | What::Tick => true,
            What::Stopped(_) => self.resource.is_stopping(),
            What::Leave => !self.leaving,
            What::Header(_)
            | What::SlotRead(..)
            | What::MailChecked(_)
            | What::Claimed(_)
            | What::Cleared(_)
            | What::MailRead(_)
            | What::MailWritten(..)
            | What::Closed(_) => what.answers(self.op),
        }
    }

    /// How the step goes on, for an entry as it was read.
    fn course(&mut self, tick: u64, what: What) -> Course
        ensures same { self.new ≡ self.old }
        ensures exact { (s : Settings) (log : List Line)
            → WatchFor self.old.watch log
            → phase s log ≡ live_phase self.old.leaving
            → is_boot_entry what ≡ false
            → (is_answer what ≡ true → answers_op (op_out log) what ≡ true)
            → result ≡ course_of s log tick what }
    {
        match what {
            What::MailRead(seen) => self.judge(tick, seen),
            What::Closed(_) => Course::End,
            What::Leave => Course::Act {
                feeds: false,
                leaving: true,
            },
            What::Begin
            | What::BeginClean
            | What::Header(_)
            | What::SlotRead(..)
            | What::MailChecked(_)
            | What::Claimed(_)
            | What::Cleared(_)
            | What::MailWritten(..)
            | What::View(_)
            | What::Ask(_)
            | What::Tell(_)
            | What::Device(_)
            | What::Tick
            | What::Stopped(_) => Course::Act {
                feeds: false,
                leaving: self.leaving,
            },
        }
    }

    /// How the step goes on at a read of the own mailbox.
    fn judge(&mut self, tick: u64, seen: MailSeen) -> Course
        ensures same { self.new ≡ self.old }
        ensures exact { (s : Settings) (log : List Line)
            → WatchFor self.old.watch log
            → phase s log ≡ live_phase self.old.leaving
            → op_out log ≡ Some DiskOp.ReadMail
            → result ≡ course_of s log tick (What.MailRead seen) }
    {
        match self.watch.read(tick, seen) {
            Verdict::Deadly(message) => Course::Halt(message),
            Verdict::Leave => Course::Act {
                feeds: true,
                leaving: true,
            },
            Verdict::Feed => Course::Act {
                feeds: true,
                leaving: self.leaving,
            },
            Verdict::Late { .. } | Verdict::NotRead => Course::Act {
                feeds: false,
                leaving: self.leaving,
            },
        }
    }

    /// Takes in what an entry, as it was read, says of the other nodes, and gives what it is to the count of
    /// votes.
    fn hear(&mut self, tick: u64, what: What) -> VoteWhat
        requires { installs_of self.old.heard < u64.MAX }
        ensures rest { self.new
            ≡ record self.old { heard = self.new.heard; fence = self.new.fence } }
        ensures few { installs_of self.new.heard ≤ installs_of self.old.heard + 1 }
        ensures vote { (s : Settings) (me : ℕ) (log : List Line) → HeardFor self.old.heard s me log
            → result ≡ vote_of log what }
        ensures hears { (s : Settings) (me : ℕ) (log : List Line) (line : Line)
            → HeardFor self.old.heard s me log
            → is_boot_entry what ≡ false
            → line.tick ≡ tick
            → line.what ≡ what
            → claim_of (disk_of line.outs) ≡ None
            → HeardBefore self.new.heard s me (line ∷ log) }
        ensures fences { (s : Settings) (log : List Line) (line : Line)
            → FenceFor self.old.fence s log
            → is_boot_entry what ≡ false
            → line.tick ≡ tick
            → line.what ≡ what
            → (is_answer what ≡ true
            → (line.asked ≡ ask_place log) × (answers_op (op_out log) what ≡ true))
            → now log ≤ line.tick
            → disk_of line.outs ≡ None
            → FenceFor self.new.fence s (line ∷ log) }
    {
        qn_heard::law_other_lines();
        qn_fence::law_other_lines();
        match what {
            What::View(view) => {
                self.heard.on_view(tick, view);
                self.fence.on_view(view);
                VoteWhat::View(view)
            }
            What::Tell(tell) => {
                if self.heard.on_tell(&tell) {
                    VoteWhat::Released
                } else {
                    VoteWhat::Tick
                }
            }
            What::Device(yes) => VoteWhat::Device(yes),
            What::SlotRead(rank, seen) => {
                self.fence.slot(rank, seen);
                VoteWhat::Tick
            }
            What::MailWritten(rank, ok) => {
                self.fence.written(rank, tick, ok);
                VoteWhat::Tick
            }
            What::Begin
            | What::BeginClean
            | What::Header(_)
            | What::MailChecked(_)
            | What::Claimed(_)
            | What::Cleared(_)
            | What::MailRead(_)
            | What::Ask(_)
            | What::Tick
            | What::Stopped(_)
            | What::Leave
            | What::Closed(_) => VoteWhat::Tick,
        }
    }

    /// Takes in what an entry, as it was read, says of the disk operation and of the resource.
    fn settle(&mut self, tick: u64, what: What)
        ensures { let op = if is_answer what then None else self.old.op in
            self.new ≡ record self.old {
              op = op;
              resource = after_entry tick what self.old.resource;
            } }
    {
        if what.is_answer() {
            self.op = None;
        }
        self.resource = self.resource.after_entry(tick, what);
    }

    /// The incarnation of the node.
    pub fn incarnation(&self) -> u64
        ensures { result ≡ self.now.incarnation }
    {
        self.incarnation
    }

    /// Up, or Leaving.
    pub fn phase(&self) -> Phase
        ensures { result ≡ live_phase self.now.leaving }
    {
        if self.leaving {
            Phase::Leaving
        } else {
            Phase::Up
        }
    }

    /// Whether the node holds the resource.
    pub fn holds(&self) -> bool
        ensures { result ≡ is_held self.now.resource }
    {
        self.resource.is_held()
    }

    /// The node, once nothing comes of it any more.
    fn rest(&self, phase: Phase) -> Rest
        ensures { result
            ≡ record {
              phase = phase;
              claims = Some self.now.incarnation;
              resource = self.now.resource;
            } }
    {
        Rest {
            phase,
            claims: Some(self.incarnation),
            resource: self.resource,
        }
    }

    /// An equal node: it stands for each log that this one stands for.
    pub fn copy(&self) -> Self
        ensures { result ≡ self.now }
    {
        Live {
            leaving: self.leaving,
            incarnation: self.incarnation,
            loop_ms: self.loop_ms,
            op: self.op,
            resource: self.resource,
            watch: self.watch.copy(),
            fence: self.fence.copy(),
            heard: self.heard.copy(),
        }
    }
}

mod acting;
