//! A node and its calls: one step, the condition that blocks a start, votes, phase and incarnation.
ghost use Rattle.std.specs.Prelude.{◌≤◌, ◌+◌};
ghost use Rattle.qn_node.specs.Stage.{installs_in};

use crate::own::Own;
use crate::stage::Stage;
use crate::tally::Tally;
use qn_base::{Rank, View};
use qn_model::{Answer, Entry, Outs, Phase, Settings, Why};

/// One member of the cluster. Ticks are milliseconds of its clock.
#[derive(Drop)]
pub struct Node {
    own: Own,
    steps_left: u64,
    incarnation: Option<u64>,
    tally: Tally,
    stage: Stage,
    ghost few_views: { installs_in stage + steps_left ≤ 18446744073709551615 },
    ghost few_counted: { tally.installs + steps_left ≤ 18446744073709551615 },
}

impl Node {
    ghost use Rattle.std.specs.Prelude.{◌≡◌, ◌<◌, ◌≤◌, ◌+◌, ℕ, List, [], All, length, true};
    ghost use Rattle.qn_model.specs.declared.configuration.Settings.{Settings};
    ghost use Rattle.qn_model.specs.Log.{Line, incarnation, now};
    ghost use Rattle.qn_model.specs.Phases.{is_live, phase};
    ghost use Rattle.qn_model.specs.Holding.{holds};
    ghost use Rattle.qn_model.specs.NodeVotes.{answer_with_tie};
    ghost use Rattle.qn_model.specs.NodeOutputs.{newest_outs, with_entry};
    ghost use Rattle.qn_model.specs.Unmet.{unmet};
    ghost use Rattle.qn_node.specs.Node.{NodeFor, phase_of, present, steps_of};
    ghost use Rattle.qn_node.specs.Outputs.{IsNodeOutput};

    /// The node of that rank before its first entry.
    pub fn new(settings: &Settings, me: Rank) -> Node
        requires { me.0 < length settings.now.nodes }
        ensures stands { NodeFor result settings.now me.0 [] }
        ensures fresh { steps_of result ≡ u64.MAX }
    {
        qn_fence::law_asked_inside();
        let own = Own {
            settings: settings.copy(),
            me,
        };
        let tally = Tally::new(&own);
        Node {
            own,
            steps_left: u64::MAX,
            incarnation: None,
            tally,
            stage: Stage::Idle,
        }
    }

    /// Takes an entry in; `outs` is emptied, and then holds what comes out of the entry. An entry that does
    /// not fit is read as a Tick. The entry's tick is not below that of the last one.
    pub fn step(&mut self, entry: Entry, outs: &mut Outs)
        requires { 0 < steps_of self.old }
        ensures stands { (s : Settings) (me : ℕ) (log : List Line)
            → NodeFor self.old s me log
            → now log ≤ entry.tick
            → NodeFor self.new s me (with_entry s me log entry) }
        ensures outs { (s : Settings) (me : ℕ) (log : List Line)
            → NodeFor self.old s me log
            → now log ≤ entry.tick
            → outs.new ≡ newest_outs (with_entry s me log entry) }
        ensures ranks { (s : Settings) (me : ℕ) (log : List Line)
            → NodeFor self.old s me log
            → now log ≤ entry.tick
            → All (IsNodeOutput s) outs.new }
        ensures count { steps_of self.new + 1 ≡ steps_of self.old }
    {
        qn_fence::law_asked_inside();
        outs.clear();
        self.incarnation = self.stage.claims();
        self.steps_left -= 1;
        self.stage.step(&self.own, &mut self.tally, entry, outs);
    }

    /// The first condition that blocks a start of the resource at this tick, which is not below that of
    /// the last entry.
    pub fn why(&self, tick: u64) -> Why
        ensures { (s : Settings) (me : ℕ) (log : List Line)
            → NodeFor self.now s me log
            → now log ≤ tick
            → result ≡ unmet s me log tick }
    {
        self.why_with(tick, self.answer(tick))
    }

    /// The same as `why`, where the count of votes at the tick is known.
    #[inline(always)]
    pub fn why_with(&self, tick: u64, count: Answer) -> Why
        ensures { (s : Settings) (me : ℕ) (log : List Line)
            → NodeFor self.now s me log
            → now log ≤ tick
            → count ≡ answer_with_tie s log tick
            → result ≡ unmet s me log tick }
    {
        self.stage.why(&self.own, tick, count)
    }

    /// The count of votes at this tick, with the tie breaker.
    #[inline(always)]
    pub fn answer(&self, tick: u64) -> Answer
        ensures { (s : Settings) (me : ℕ) (log : List Line)
            → NodeFor self.now s me log
            → result ≡ answer_with_tie s log tick }
    {
        self.tally.answer(&self.own, tick)
    }

    /// The install number of the present view, which counts the views since the boot from 1, and that view; None
    /// without a view.
    pub fn present(&self) -> Option<(u64, View)>
        ensures { (s : Settings) (me : ℕ) (log : List Line) → NodeFor self.now s me log
            → result ≡ present log }
    {
        qn_model::law_present_view();
        self.tally.present()
    }

    /// Whether the node holds the resource.
    pub fn holds(&self) -> bool
        ensures { (s : Settings) (me : ℕ) (log : List Line) → NodeFor self.now s me log
            → result ≡ holds log }
    {
        self.stage.holds()
    }

    /// Where the node is in its life.
    pub fn phase(&self) -> Phase
        ensures value { result ≡ phase_of self.now }
        ensures exact { (s : Settings) (me : ℕ) (log : List Line) → NodeFor self.now s me log
            → result ≡ phase s log }
    {
        self.stage.phase()
    }

    /// The incarnation that the node claimed: None up to the entry that gives the claim, that entry included.
    pub fn incarnation(&self) -> Option<u64>
        ensures { (s : Settings) (me : ℕ) (log : List Line) → NodeFor self.now s me log
            → result ≡ incarnation log }
    {
        self.incarnation
    }

    /// How many entries the node can still take.
    pub fn steps_left(&self) -> u64
        ensures { result ≡ steps_of self.now }
    {
        self.steps_left
    }

    /// An equal node, of one that is up or leaving: it stands for each log that this one stands for.
    pub fn copy(&self) -> Node
        requires { is_live (phase_of self.now) ≡ true }
        ensures stands { (s : Settings) (me : ℕ) (log : List Line) → NodeFor self.now s me log
            → NodeFor result s me log }
        ensures count { steps_of result ≡ steps_of self.now }
    {
        Node {
            own: self.own.copy(),
            steps_left: self.steps_left,
            incarnation: self.incarnation,
            tally: self.tally.copy(),
            stage: self.stage.copy(),
        }
    }
}
