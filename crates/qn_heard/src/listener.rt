//! The listener: takes views, asks and tells, and says who is free, held or unheard.
use qn_base::{Mask, Rank, View};
use qn_model::{Ask, Tell};

/// What a member said of the resource since the last view (this project's profile).
#[derive(Clone, Copy, PartialEq, Eq)]
pub enum Heardness {
    /// It said that it does not hold.
    Free,
    /// It answered, and never said that it does not hold.
    Held,
    /// It did not answer.
    Unheard,
}

/// What a node heard of the other members under its present view, and from when on it asks them again.
/// Ticks are milliseconds of the node's clock.
#[derive(Drop)]
pub struct Heard {
    me: Rank,
    incarnation: u64,
    loop_ms: u64,
    view: Option<View>,
    installs: u64,
    free: Mask,
    told: Mask,
    next_ask: Option<u64>,
}

impl Heard {
    ghost use Rattle.std.specs.Prelude.{◌≡◌, ◌<◌, ◌+◌, ◌==◌, ◌&&◌, ◌||◌, ◌∷◌, ◌≤◌, ℕ, Some, None, List, true, false, not, is_some, length};
    ghost use Rattle.std.specs.Option.{option_map};
    ghost use Rattle.qn_base.specs.Members.{is_member};
    ghost use Rattle.qn_model.specs.declared.configuration.Settings.{Settings};
    ghost use Rattle.qn_model.specs.declared.entries.What.{What};
    ghost use Rattle.qn_model.specs.Log.{Line, claim_of, claimed, disk_of, now, timing};
    ghost use Rattle.qn_model.specs.Hearing.{is_free, is_held};
    ghost use Rattle.qn_model.specs.NodeOutputs.{ask_to, is_asked, is_asking, reply};
    ghost use Rattle.qn_model.specs.NodeVotes.{answers, install, is_in_view, is_present, released as is_released, view};
    ghost use Rattle.qn_model.specs.Phases.{is_up, phase};
    ghost use Rattle.qn_model.specs.Unmet.{holder, unheard};
    ghost use Rattle.qn_heard.specs.Heard.{HeardBefore, HeardFor, Hears, asks_sent, heardness, installs_of, tells_sent};

    /// What a node of that rank and incarnation has heard before its first view: nothing. `loop_ms` is the
    /// loop's time of its image, in milliseconds.
    pub fn new(me: Rank, incarnation: u64, loop_ms: u64) -> Self
        ensures none { installs_of result ≡ 0 }
        ensures stands { (s : Settings) (log : List Line)
            → claimed log ≡ Some incarnation
            → (timing log).loop_ms ≡ loop_ms
            → view log ≡ None
            → HeardFor result s me.0 log }
    {
        Heard {
            me,
            incarnation,
            loop_ms,
            view: None,
            installs: 0,
            free: Mask(0),
            told: Mask(0),
            next_ask: None,
        }
    }

    /// How many views were installed.
    pub fn installs(&self) -> u64
        ensures value { result ≡ installs_of self.now }
        ensures exact { (s : Settings) (me : ℕ) (log : List Line) → HeardFor self.now s me log
            → result ≡ install log }
    {
        self.installs
    }

    /// The present view: the last that was installed.
    pub fn view(&self) -> Option<View>
        ensures { (s : Settings) (me : ℕ) (log : List Line) → HeardFor self.now s me log
            → result ≡ view log }
    {
        self.view
    }

    /// A view is installed at this tick: what was heard before it counts for nothing.
    pub fn on_view(&mut self, tick: u64, view: View)
        requires { installs_of self.old < u64.MAX }
        ensures count { installs_of self.new ≡ installs_of self.old + 1 }
        ensures stands { (s : Settings) (me : ℕ) (log : List Line) (line : Line)
            → HeardFor self.old s me log
            → line.tick ≡ tick
            → line.what ≡ What.View view
            → claim_of (disk_of line.outs) ≡ None
            → HeardBefore self.new s me (line ∷ log) }
    {
        self.view = Some(view);
        self.installs += 1;
        self.free = Mask(0);
        self.told = Mask(0);
        self.next_ask = Some(tick);
    }

    /// Whom the node, if it is up, asks at this tick, after it took in the tick's entry: at an asking
    /// moment every other member that is not free, and every other member while the node is not released;
    /// else nobody.
    pub fn asks(&mut self, tick: u64, released: bool) -> Mask
        ensures count { installs_of self.new ≡ installs_of self.old }
        ensures stands { (s : Settings) (me : ℕ) (log : List Line)
            → HeardBefore self.old s me log
            → now log ≡ tick
            → HeardFor self.new s me log }
        ensures whom { (s : Settings) (me : ℕ) (log : List Line)
            → HeardBefore self.old s me log
            → now log ≡ tick
            → is_up (phase s log) ≡ true
            → released ≡ is_released s log
            → (rank : ℕ) → rank < 32
            → is_member result rank ≡ (is_asking s log && is_asked s me log rank) }
    {
        match self.next_ask {
            Some(due) if due <= tick => {
                self.next_ask = tick.checked_add(self.loop_ms);
                self.to_ask(released)
            }
            _ => Mask(0),
        }
    }

    /// Takes in a Tell to this node from another one: whether it answers the present incarnation, install
    /// number and view, and says released.
    pub fn on_tell(&mut self, tell: &Tell) -> bool
        ensures count { installs_of self.new ≡ installs_of self.old }
        ensures says { (s : Settings) (me : ℕ) (log : List Line)
            → HeardFor self.old s me log
            → result ≡ (answers log tell.now && tell.now.released) }
        ensures stands { (s : Settings) (me : ℕ) (log : List Line) (line : Line)
            → HeardFor self.old s me log
            → line.what ≡ What.Tell tell.now
            → claim_of (disk_of line.outs) ≡ None
            → HeardBefore self.new s me (line ∷ log) }
    {
        let answers = self.answers(tell);
        self.hear(tell, answers);
        answers && tell.released
    }

    /// What a member said since the last view.
    pub fn state(&self, j: Rank) -> Heardness
        requires { j.0 < 32 }
        ensures { (s : Settings) (me : ℕ) (log : List Line) → HeardFor self.now s me log
            → result ≡ heardness log j.0 }
    {
        if self.free.contains(j) {
            Heardness::Free
        } else if self.told.contains(j) {
            Heardness::Held
        } else {
            Heardness::Unheard
        }
    }

    /// The least other member, among the first `count` ranks, that says that it holds.
    pub fn holder(&self, count: u8) -> Option<Rank>
        ensures { (s : Settings) (me : ℕ) (log : List Line)
            → HeardFor self.now s me log
            → length s.nodes ≡ count
            → count ≤ 32
            → option_map (λ rank. rank.0) result ≡ holder s me log }
    {
        self.others()
            .both(self.told)
            .without(self.free)
            .first(count)
    }

    /// The least other member, among the first `count` ranks, that did not answer.
    pub fn unheard(&self, count: u8) -> Option<Rank>
        ensures { (s : Settings) (me : ℕ) (log : List Line)
            → HeardFor self.now s me log
            → length s.nodes ≡ count
            → count ≤ 32
            → option_map (λ rank. rank.0) result ≡ unheard s me log }
    {
        self.others()
            .without(self.told)
            .without(self.free)
            .first(count)
    }

    /// The Ask to a member under the present view; none before the first view.
    pub fn ask(&self, to: Rank) -> Option<Ask>
        ensures { (s : Settings) (me : ℕ) (log : List Line) (line : Line)
            → HeardFor self.now s me (line ∷ log)
            → claim_of (disk_of line.outs) ≡ None
            → asks_sent to result
            ≡ option_map (λ present. ask_to me (line ∷ log) present to.0) (view (line ∷ log)) }
    {
        let view = self.view?;
        Some(Ask {
            from: self.me,
            to,
            incarnation: self.incarnation,
            install: self.installs,
            view,
        })
    }

    /// The answer to an Ask to this node from another one: None exactly where no view was installed yet, the
    /// Ask is about another view, or the asker is no member of it. `holds` and `released` are what the node
    /// says of itself.
    pub fn reply(&self, ask: &Ask, holds: bool, released: bool) -> Option<Tell>
        ensures given { (s : Settings) (me : ℕ) (log : List Line)
            → HeardFor self.now s me log
            → is_some result
            ≡ (is_present log ask.now.view && is_member ask.now.view.members ask.now.from.0) }
        ensures exact { (s : Settings) (me : ℕ) (log : List Line)
            → HeardFor self.now s me log
            → released ≡ is_released s log
            → tells_sent ask.now.from result ≡ reply s me holds log ask.now }
    {
        if !self.is_present(ask.view) || !ask.view.members.has(ask.from) {
            return None;
        }
        Some(Tell {
            from: self.me,
            to: ask.from,
            incarnation: ask.incarnation,
            install: ask.install,
            view: ask.view,
            holds,
            released,
        })
    }

    /// An equal listener: it stands for each log that this one stands for.
    pub fn copy(&self) -> Self
        ensures equal { result ≡ self.now }
        ensures stands { (s : Settings) (me : ℕ) (log : List Line) → HeardFor self.now s me log
            → HeardFor result s me log }
    {
        Heard {
            me: self.me,
            incarnation: self.incarnation,
            loop_ms: self.loop_ms,
            view: self.view,
            installs: self.installs,
            free: self.free,
            told: self.told,
            next_ask: self.next_ask,
        }
    }

    /// Whether a Tell answers the present incarnation, install number and view.
    fn answers(&self, tell: &Tell) -> bool
        ensures { (me : ℕ) (log : List Line) → Hears self.now me log
            → result ≡ answers log tell.now }
    {
        self.incarnation == tell.incarnation
            && self.installs == tell.install
            && self.is_present(tell.view)
    }

    /// Whether a view is the present one.
    fn is_present(&self, asked: View) -> bool
        ensures { (me : ℕ) (log : List Line) → Hears self.now me log
            → result ≡ is_present log asked }
    {
        match self.view {
            Some(own) => own.id == asked.id && own.members.0 == asked.members.0,
            None => false,
        }
    }

    /// Notes what a Tell says of its sender, where it answers.
    fn hear(&mut self, tell: &Tell, answers: bool)
        ensures rest { self.new ≡ record self.old { told = self.new.told; free = self.new.free } }
        ensures told { (j : ℕ) → j < 32
            → is_member self.new.told j
            ≡ ((tell.now.from.0 == j && answers) || is_member self.old.told j) }
        ensures free { (j : ℕ) → j < 32
            → is_member self.new.free j
            ≡ ((tell.now.from.0 == j && answers && not tell.now.holds)
            || is_member self.old.free j) }
    {
        if answers {
            self.told = self.told.with(tell.from);
        }
        if answers && !tell.holds {
            self.free = self.free.with(tell.from);
        }
    }

    /// The other members of the present view.
    fn others(&self) -> Mask
        ensures { (me : ℕ) (log : List Line)
            → Hears self.now me log
            → (rank : ℕ) → rank < 32
            → is_member result rank ≡ (is_in_view log rank && not (rank == me)) }
    {
        match self.view {
            Some(view) => view.members.without(Mask(0).with(self.me)),
            None => Mask(0),
        }
    }

    /// The other members that are asked, by whether the node is released.
    fn to_ask(&self, released: bool) -> Mask
        ensures { (me : ℕ) (log : List Line)
            → Hears self.now me log
            → (rank : ℕ) → rank < 32
            → is_member result rank
            ≡ (is_in_view log rank && not (rank == me)
            && (not released || not (is_free log rank))) }
    {
        if released {
            self.others().without(self.free)
        } else {
            self.others()
        }
    }
}
