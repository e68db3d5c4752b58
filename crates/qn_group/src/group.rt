//! The group: what is wanted of it, and what is to be done next.
ghost use Rattle.std.specs.Prelude.{◌≡◌, List, IfSome, false, true};
ghost use Rattle.qn_group.specs.Acts.{is_start, starts_in};
ghost use Rattle.qn_group.specs.declared.phase.Phase.{Phase};
ghost use Rattle.qn_group.specs.Places.{Acted, ActedBy, after_look, may_begin, monitor_of};

use crate::phase::{MOST, Outcome, Phase, Rule, Rules, Verb, after_end};

/// How many failures of each resource are kept.
const KEPT: usize = 8;

/// How soon a resource that is unsure is looked at again, in milliseconds.
const SOON: u64 = 2_000;

/// What is wanted of the group.
#[derive(Clone, Copy, PartialEq, Eq)]
pub enum Goal {
    Rest,
    Run,
    /// Down from that place on, and then to run.
    Restart { from: usize },
    /// Down, and then the node is to leave.
    Leave,
}

/// What happened.
#[derive(Clone, Copy, PartialEq, Eq)]
pub enum Event {
    Tick(u64),
    /// The node starts the group.
    Start,
    /// The node asks for a stop.
    Stop,
    /// An operator moves the group to another node.
    Move,
    Maintenance(bool),
    Ended {
        at: usize,
        verb: Verb,
        outcome: Outcome,
    },
}

/// What is to be done.
#[derive(Clone, Copy, PartialEq, Eq)]
pub enum Act {
    Run { at: usize, verb: Verb },
    /// The action that is under way there is ended by force.
    Kill { at: usize },
    /// The node is told to leave.
    Leave,
}

/// What the asker is answered.
#[derive(Clone, Copy, PartialEq, Eq)]
pub enum Answer {
    Started,
    Stopped,
    Wait,
    Stuck,
    Moves,
    Refused,
}

/// What comes out of an event.
#[derive(Clone, Copy, PartialEq, Eq)]
pub struct Given {
    pub answer: Option<Answer>,
    pub act: Option<Act>,
    /// A failure is counted: of the resource whose action ended.
    pub is_counted: bool,
}

/// What the way down comes to.
#[derive(Clone, Copy, PartialEq, Eq)]
pub enum Lowered {
    Done,
    Waits,
    Acts(Act),
}

/// The ticks of the last failures of a resource.
#[derive(Clone, Copy)]
struct Failures {
    ticks: [Option<u64>; KEPT],
    next: usize,
}

impl Failures {
    fn new() -> Failures {
        Failures {
            ticks: [None; KEPT],
            next: 0,
        }
    }

    /// How many came within that time.
    fn recent(&self, now: u64, window: u64) -> usize {
        self.ticks
            .iter()
            .filter(|tick| is_recent(**tick, now, window))
            .count()
    }

    fn add(&mut self, tick: u64) {
        if let Some(place) = self.ticks.get_mut(self.next % KEPT) {
            *place = Some(tick);
        }
        self.next = (self.next % KEPT) + 1;
    }
}

fn is_recent(tick: Option<u64>, now: u64, window: u64) -> bool {
    match tick {
        Some(tick) => now.saturating_sub(tick) < window,
        None => false,
    }
}

/// The supervisor of a group.
#[derive(Clone, Copy)]
pub struct Group {
    /// The node was told that it starts, and no stop was answered as done since.
    pub(crate) held: bool,
    goal: Goal,
    /// Places that are not used are down.
    pub(crate) phases: [Phase; MOST],
    pub(crate) count: usize,
    failures: [Failures; MOST],
    last_ask: Option<u64>,
    pub(crate) hands_off: bool,
    left: bool,
    clock: u64,
}

impl Group {
    ghost use Rattle.std.specs.Prelude.{◌≡◌, ◌≢◌, ◌↔◌, ◌<◌, ◌≤◌, ℕ, IfSome, IsSome, slice_set, false, true};
    ghost use Rattle.std.specs.List.{list_all};
    ghost use Rattle.qn_group.specs.Phases.{Idle, is_down, stage_after_end};
    ghost use Rattle.qn_group.specs.Acts.{is_start, is_stopped, starts_in};
    ghost use Rattle.qn_group.specs.Places.{Acted, ActedBy, Moved};
    ghost use Rattle.qn_group.specs.Steps.{Step, are_all_down, holds, stage_at};

    /// A group of so many resources, of which nothing is known; none if they are more than a group can have. `held` says that the node holds, by what was kept of
    /// this boot.
    pub fn new(count: usize, held: bool) -> Option<Group>
        ensures fits { IsSome result ↔ (count ≤ MOST) }
        ensures held { IfSome result (λ group. holds group ≡ held) }
        ensures unknown { IfSome result (λ group. (at : ℕ) → at < count → stage_at group at ≡ Idle) }
    {
        if count > MOST {
            return None;
        }
        let mut phases = [Phase::Down; MOST];
        for at in 0..count {
            phases[at] = Phase::New;
        }
        Some(Group {
            held,
            goal: if held { Goal::Run } else { Goal::Rest },
            phases,
            count,
            failures: [Failures::new(); MOST],
            last_ask: None,
            hands_off: false,
            left: false,
            clock: 0,
        })
    }

    /// What is wanted of the group.
    pub fn goal(&self) -> Goal
        ensures { result ≡ self.now.goal }
    {
        self.goal
    }

    /// A failure of the resource of that place was counted at this tick, before this group began.
    pub fn remember(&mut self, at: usize, tick: u64)
        ensures held { holds self.new ≡ holds self.old }
        ensures phases { self.new.phases ≡ self.old.phases }
    {
        if let Some(failures) = self.failures.get_mut(at) {
            failures.add(tick);
        }
    }

    /// Takes an event.
    pub fn step(&mut self, rules: &Rules, event: Event) -> Given
        ensures { Step self.old event result self.new }
    {
        match event {
            Event::Tick(tick) => Given {
                answer: None,
                act: self.tick(rules, tick),
                is_counted: false,
            },
            Event::Start => self.start(),
            Event::Stop => self.stop(),
            Event::Move => self.move_away(),
            Event::Maintenance(on) => {
                self.hands_off = on;
                Given {
                    answer: None,
                    act: self.drive(),
                    is_counted: false,
                }
            }
            Event::Ended { at, verb, outcome } => {
                let is_counted = self.ended(rules, at, verb, outcome);
                Given {
                    answer: None,
                    act: self.drive(),
                    is_counted,
                }
            }
        }
    }

    fn tick(&mut self, rules: &Rules, tick: u64) -> Option<Act>
        ensures held { self.new.held ≡ self.old.held }
        ensures started { is_start result ≡ true → self.new.held ≡ true }
        ensures acted { Acted result self.old.phases self.new.phases }
    {
        self.clock = self.clock.max(tick);
        if self.is_forgotten(rules.forgetting) {
            self.forget();
        }
        match look(&mut self.phases, &rules.resources, self.clock) {
            Some(at) => Some(Act::Run {
                at,
                verb: Verb::Monitor,
            }),
            None => self.drive(),
        }
    }

    /// Whether the node asked for a stop, and asks no more: it is quorate again, and holds on.
    fn is_forgotten(&self, forgetting: u64) -> bool {
        match self.last_ask {
            Some(asked) => self.held
                && !matches!(self.goal, Goal::Leave)
                && self.clock.saturating_sub(asked) >= forgetting,
            None => false,
        }
    }

    fn forget(&mut self)
        ensures held { self.new.held ≡ self.old.held }
        ensures phases { self.new.phases ≡ self.old.phases }
    {
        self.last_ask = None;
        if matches!(self.goal, Goal::Rest) {
            self.goal = Goal::Run;
        }
    }

    fn start(&mut self) -> Given
        ensures held { self.new.held ≡ true }
        ensures not_stopped { is_stopped result ≡ false }
        ensures acted { Acted result.act self.old.phases self.new.phases }
    {
        self.held = true;
        self.goal = Goal::Run;
        self.left = false;
        self.last_ask = None;
        Given {
            answer: Some(Answer::Started),
            act: self.drive(),
            is_counted: false,
        }
    }

    fn stop(&mut self) -> Given
        ensures stopped { is_stopped result ≡ true → list_all is_down self.new.phases ≡ true }
        ensures released { is_stopped result ≡ true → self.new.held ≡ false }
        ensures started { is_start result.act ≡ true → self.new.held ≡ true }
        ensures kept { self.new.held ≡ true → self.old.held ≡ true }
        ensures moved { (at : ℕ) → Moved result.act at (stage_at self.old at) (stage_at self.new at) }
    {
        if self.are_down() {
            self.held = false;
            self.goal = Goal::Rest;
            self.last_ask = None;
            self.left = false;
            return Given {
                answer: Some(Answer::Stopped),
                act: None,
                is_counted: false,
            };
        }
        let is_first = self.is_let_pass();
        self.last_ask = Some(self.clock);
        if is_first {
            return Given {
                answer: Some(Answer::Wait),
                act: None,
                is_counted: false,
            };
        }
        self.stop_again()
    }

    /// Whether a stop that is asked for now is let pass: it is the first asking, and the whole group runs. The node asks again a loop later, where it is not quorate by
    /// then.
    fn is_let_pass(&self) -> bool {
        self.held
            && matches!(self.goal, Goal::Run)
            && self.last_ask.is_none()
            && self
                .phases
                .iter()
                .take(self.count)
                .all(|phase| phase.is_up())
    }

    /// The group is taken down; what is stuck is stopped again.
    fn stop_again(&mut self) -> Given
        ensures held { self.new.held ≡ self.old.held }
        ensures started { is_start result.act ≡ true → self.new.held ≡ true }
        ensures not_stopped { is_stopped result ≡ false }
        ensures moved { (at : ℕ) → Moved result.act at (stage_at self.old at) (stage_at self.new at) }
    {
        let is_stuck = self.free_stuck();
        if !matches!(self.goal, Goal::Leave) {
            self.goal = Goal::Rest;
        }
        let answer = if is_stuck {
            Answer::Stuck
        } else {
            Answer::Wait
        };
        Given {
            answer: Some(answer),
            act: self.drive(),
            is_counted: false,
        }
    }

    fn move_away(&mut self) -> Given
        ensures held { self.new.held ≡ self.old.held }
        ensures started { is_start result.act ≡ true → self.new.held ≡ true }
        ensures not_stopped { is_stopped result ≡ false }
        ensures acted { Acted result.act self.old.phases self.new.phases }
    {
        if !self.held || matches!(self.goal, Goal::Rest | Goal::Leave) {
            return Given {
                answer: Some(Answer::Refused),
                act: None,
                is_counted: false,
            };
        }
        self.goal = Goal::Leave;
        Given {
            answer: Some(Answer::Moves),
            act: self.drive(),
            is_counted: false,
        }
    }

    /// Whether nothing of the group runs.
    fn are_down(&self) -> bool
        ensures { result ≡ list_all is_down self.now.phases }
    {
        self.phases.iter().all(|phase| phase.is_down())
    }

    fn put(&mut self, at: usize, phase: Phase)
        ensures held { self.new.held ≡ self.old.held }
        ensures phases { self.new.phases ≡ slice_set self.old.phases at phase }
    {
        if at < MOST {
            self.phases[at] = phase;
        }
    }

    /// The last resource that is stuck is to be stopped again; whether there is one.
    fn free_stuck(&mut self) -> bool
        ensures held { self.new.held ≡ self.old.held }
        ensures stages { (at : ℕ) → stage_at self.new at ≡ stage_at self.old at }
    {
        match self
            .phases
            .iter()
            .rposition(|phase| matches!(phase, Phase::Stuck))
        {
            Some(at) => {
                self.put(at, Phase::Failed);
                true
            }
            None => false,
        }
    }

    /// An action on the resource of that place ended; whether a failure of it is counted.
    fn ended(&mut self, rules: &Rules, at: usize, verb: Verb, outcome: Outcome) -> bool
        ensures held { self.new.held ≡ self.old.held }
        ensures here { stage_at self.new at ≡ stage_after_end verb outcome (stage_at self.old at) }
        ensures others { (other : ℕ) → other ≢ at → stage_at self.new other ≡ stage_at self.old other }
    {
        if at >= MOST {
            return false;
        }
        let before = self.phases[at];
        let after = after_end(
            rules.resources[at],
            self.hands_off,
            self.clock,
            before,
            verb,
            outcome,
        );
        self.put(at, after);
        let is_in_vain = verb == Verb::Start && outcome == Outcome::Hard;
        after == Phase::Failed && counts(before) && self.fail(rules.resources[at], at, is_in_vain)
    }

    /// The resource of that place failed; whether that is counted.
    fn fail(&mut self, rule: Rule, at: usize, is_in_vain: bool) -> bool
        ensures held { self.new.held ≡ self.old.held }
        ensures phases { self.new.phases ≡ self.old.phases }
    {
        if matches!(self.goal, Goal::Rest | Goal::Leave) {
            return false;
        }
        if is_in_vain {
            self.goal = Goal::Leave;
            return false;
        }
        let recent = self.count_failure(at, rule.window);
        self.goal = if recent >= rule.limit.min(KEPT) {
            Goal::Leave
        } else {
            Goal::Restart {
                from: match self.goal {
                    Goal::Restart { from } => from.min(at),
                    Goal::Rest | Goal::Run | Goal::Leave => at,
                },
            }
        };
        true
    }

    /// Counts a failure; how many came before it within that time.
    fn count_failure(&mut self, at: usize, window: u64) -> usize
        ensures held { self.new.held ≡ self.old.held }
        ensures goal { self.new.goal ≡ self.old.goal }
        ensures phases { self.new.phases ≡ self.old.phases }
    {
        match self.failures.get_mut(at) {
            Some(failures) => {
                let recent = failures.recent(self.clock, window);
                failures.add(self.clock);
                recent
            }
            None => 0,
        }
    }

    /// The next action that takes down what stands from that place on: of the last one that is not down.
    fn lower(&mut self, low: usize) -> Lowered
        ensures held { self.new.held ≡ self.old.held }
        ensures no_start { starts_in result ≡ false }
        ensures acted { ActedBy result self.old.phases self.new.phases }
    {
        let Some(at) = self.phases.iter().rposition(|phase| !phase.is_down()) else {
            return Lowered::Done;
        };
        if at < low {
            return Lowered::Done;
        }
        match self.phases.get(at).copied().unwrap_or(Phase::Down) {
            Phase::Up { .. } | Phase::Failed | Phase::Checking { asked: false, .. } => {
                self.put(at, Phase::Stopping);
                Lowered::Acts(Act::Run {
                    at,
                    verb: Verb::Stop,
                })
            }
            Phase::Starting { killed: false } => self.kill(at, Phase::Starting { killed: true }),
            Phase::Looking {
                unsure,
                killed: false,
            } => self.kill(
                at,
                Phase::Looking {
                    unsure,
                    killed: true,
                },
            ),
            Phase::Checking {
                since,
                stopped,
                asked,
                killed: false,
            } => self.kill(
                at,
                Phase::Checking {
                    since,
                    stopped,
                    asked,
                    killed: true,
                },
            ),
            _ => Lowered::Waits,
        }
    }

    fn kill(&mut self, at: usize, phase: Phase) -> Lowered
        ensures held { self.new.held ≡ self.old.held }
        ensures kills { result ≡ Lowered.Acts (Act.Kill at) }
        ensures phases { self.new.phases ≡ slice_set self.old.phases at phase }
    {
        self.put(at, phase);
        Lowered::Acts(Act::Kill { at })
    }

    /// The next start: of the first one that does not run, where it is down.
    fn raise(&mut self) -> Option<Act>
        ensures held { self.new.held ≡ self.old.held }
        ensures started { is_start result ≡ true → self.new.held ≡ true }
        ensures acted { Acted result self.old.phases self.new.phases }
    {
        if !self.held {
            return None;
        }
        let at = self.phases.iter().position(|phase| !phase.is_up())?;
        if at >= self.count || self.phases.get(at).copied() != Some(Phase::Down) {
            return None;
        }
        self.put(at, Phase::Starting { killed: false });
        Some(Act::Run {
            at,
            verb: Verb::Start,
        })
    }

    /// The next action towards what is wanted.
    fn drive(&mut self) -> Option<Act>
        ensures held { self.new.held ≡ self.old.held }
        ensures started { is_start result ≡ true → self.new.held ≡ true }
        ensures acted { Acted result self.old.phases self.new.phases }
    {
        match self.goal {
            Goal::Rest => act_of(self.lower(0)),
            Goal::Leave => self.drive_away(),
            Goal::Restart { from } => match self.lower(from) {
                Lowered::Done => {
                    self.goal = Goal::Run;
                    self.drive_up()
                }
                Lowered::Waits => None,
                Lowered::Acts(act) => Some(act),
            },
            Goal::Run => self.drive_up(),
        }
    }

    fn drive_away(&mut self) -> Option<Act>
        ensures held { self.new.held ≡ self.old.held }
        ensures no_start { is_start result ≡ false }
        ensures acted { Acted result self.old.phases self.new.phases }
    {
        match self.lower(0) {
            Lowered::Done if !self.left => {
                self.left = true;
                Some(Act::Leave)
            }
            Lowered::Done | Lowered::Waits => None,
            Lowered::Acts(act) => Some(act),
        }
    }

    fn drive_up(&mut self) -> Option<Act>
        ensures held { self.new.held ≡ self.old.held }
        ensures started { is_start result ≡ true → self.new.held ≡ true }
        ensures acted { Acted result self.old.phases self.new.phases }
    {
        if self.hands_off {
            return None;
        }
        match self
            .phases
            .iter()
            .position(|phase| matches!(phase, Phase::Failed))
        {
            None => self.raise(),
            Some(from) => {
                self.goal = Goal::Restart { from };
                act_of(self.lower(from))
            }
        }
    }
}

fn act_of(lowered: Lowered) -> Option<Act>
    ensures no_start { starts_in lowered ≡ false → is_start result ≡ false }
    ensures acted { (old new : List Phase) → ActedBy lowered old new → Acted result old new }
{
    match lowered {
        Lowered::Acts(act) => Some(act),
        Lowered::Done | Lowered::Waits => None,
    }
}

/// Whether a failure after this phase is one of the resource, and not the end of an action that was killed, or a first look.
fn counts(before: Phase) -> bool {
    match before {
        Phase::Starting { killed }
        | Phase::Looking { killed, .. }
        | Phase::Checking { killed, .. } => !killed,
        _ => false,
    }
}

/// The phase of a resource that is looked at from now on, where that is due.
fn asked(rule: Rule, now: u64, before: Phase) -> Option<Phase>
    ensures { IfSome result (λ after. (after ≡ after_look before) × (may_begin Verb.Monitor before ≡ true)) }
{
    match before {
        Phase::New => Some(Phase::Probing),
        Phase::Checking {
            since,
            stopped,
            asked: false,
            killed,
        } => Some(Phase::Checking {
            since,
            stopped,
            asked: true,
            killed,
        }),
        Phase::Verifying {
            since,
            asked: false,
        } => Some(Phase::Verifying { since, asked: true }),
        Phase::Up { since, unsure } => {
            let wait = match unsure {
                Some(_) => rule.interval.min(SOON),
                None => rule.interval,
            };
            if now.saturating_sub(since) >= wait {
                Some(Phase::Looking {
                    unsure,
                    killed: false,
                })
            } else {
                None
            }
        }
        _ => None,
    }
}

/// The first resource that is to be looked at now, which is looked at from now on.
fn look(phases: &mut [Phase; MOST], rules: &[Rule; MOST], now: u64) -> Option<usize>
    ensures { Acted (monitor_of result) phases.old phases.new }
{
    for (at, rule) in rules.iter().enumerate() {
        if let Some(after) = asked(*rule, now, phases[at]) {
            phases[at] = after;
            return Some(at);
        }
    }
    None
}
