//! The step of a group of resources, line by line.

use crate::line::{Line, read_line};
use crate::reply::{Reply, phases_line, reply_line};
use arrayvec::ArrayVec;
use qn_base::ShortText;
use qn_group::{Event, Given, Group, MOST, Rule, Rules, forgetting_of};
use qn_model::LineFault;

/// Room for what is told after an event: five lines, and that of the phases.
pub const TOLD: usize = 2048;

/// The times of a place that no resource has.
const UNUSED: Rule = Rule {
    interval: 0,
    patience: 0,
    check: 0,
    stop: 0,
    limit: 0,
    window: 0,
};

/// Why a line is not taken.
#[derive(Clone, Copy, PartialEq, Eq)]
pub enum Refused {
    /// It is no line of a supervisor.
    Line(LineFault),
    /// The group has begun already.
    Begun,
    /// The group has not begun.
    NotBegun,
    /// No resource of the group has that place.
    NoResource,
}

impl Refused {
    /// The reason in a few words.
    pub fn name(self) -> &'static str {
        match self {
            Refused::Line(fault) => fault.name(),
            Refused::Begun => "the group has begun",
            Refused::NotBegun => "the group has not begun",
            Refused::NoResource => "no resource has that place",
        }
    }
}

/// The resources that were named, and the group of them once it has begun.
#[derive(Drop)]
pub struct Steps {
    rules: Rules,
    count: usize,
    group: Option<Group>,
}

impl Steps {
    ghost use Rattle.std.specs.Prelude.{◌≡◌, None, IfOk, OnErr};
    ghost use Rattle.qn_supervisor.specs.Steps.{GroupStep};

    /// No resource was named.
    pub fn new() -> Steps
        ensures { result.group ≡ None }
    {
        Steps {
            rules: Rules {
                forgetting: forgetting_of(0),
                resources: [UNUSED; MOST],
            },
            count: 0,
            group: None,
        }
    }

    /// Takes a line, without its end, and gives what is told then, each line with its end: after an event its answer, a failure that is counted and what is to be
    /// done, and after `begin` and an event the goal, the phases and how the group stands. An event is a step of the group. A line that is refused changes nothing:
    /// it is none, a resource or a `begin` comes once the group has begun, an event before, or there is no resource of that place, or none more.
    pub fn take(&mut self, text: &[u8]) -> Result<ArrayVec<u8, TOLD>, Refused>
        ensures unchanged { OnErr result (self.new ≡ self.old) }
    {
        let mut told = ArrayVec::new();
        match read_line(text).map_err(Refused::Line)? {
            Line::Resource(rule) => self.name(rule)?,
            Line::Loop { turn } => self.rules.forgetting = forgetting_of(turn),
            Line::Begin { held } => {
                self.begin(held)?;
                self.add_standing(&mut told);
            }
            Line::Failed { at, tick } => self.remember(at, tick)?,
            Line::Happens(event) => {
                let given = self.step(event)?;
                add_given(&mut told, event, &given);
                self.add_standing(&mut told);
            }
        }
        Ok(told)
    }

    /// One more resource.
    fn name(&mut self, rule: Rule) -> Result<(), Refused>
        ensures unchanged { OnErr result (self.new ≡ self.old) }
    {
        if self.group.is_some() {
            return Err(Refused::Begun);
        }
        if self.count >= MOST {
            return Err(Refused::Line(LineFault::TooMany));
        }
        self.rules.resources[self.count] = rule;
        self.count += 1;
        Ok(())
    }

    fn begin(&mut self, held: bool) -> Result<(), Refused>
        ensures unchanged { OnErr result (self.new ≡ self.old) }
    {
        if self.group.is_some() {
            return Err(Refused::Begun);
        }
        self.group = Group::new(self.count, held);
        Ok(())
    }

    fn remember(&mut self, at: usize, tick: u64) -> Result<(), Refused>
        ensures unchanged { OnErr result (self.new ≡ self.old) }
    {
        if at >= self.count {
            return Err(Refused::NoResource);
        }
        match &mut self.group {
            Some(group) => {
                group.remember(at, tick);
                Ok(())
            }
            None => Err(Refused::NotBegun),
        }
    }

    /// An event, which is a step of the group.
    fn step(&mut self, event: Event) -> Result<Given, Refused>
        ensures unchanged { OnErr result (self.new ≡ self.old) }
        ensures steps { IfOk result (λ given. GroupStep self.old.group event given self.new.group) }
    {
        if let Event::Ended { at, .. } = event {
            if at >= self.count {
                return Err(Refused::NoResource);
            }
        }
        match &mut self.group {
            Some(group) => Ok(group.step(&self.rules, event)),
            None => Err(Refused::NotBegun),
        }
    }

    /// Adds how the group stands, once it has begun.
    fn add_standing(&self, told: &mut ArrayVec<u8, TOLD>) {
        if let Some(group) = &self.group {
            add_line(told, &reply_line(&Reply::Goal(group.goal())));
            add_line(told, &phases_line(group.phases()));
            add_line(told, &reply_line(&Reply::Told(group.told())));
        }
    }
}

/// Adds what came out of an event.
fn add_given(told: &mut ArrayVec<u8, TOLD>, event: Event, given: &Given) {
    if let Some(answer) = given.answer {
        add_line(told, &reply_line(&Reply::Answer(answer)));
    }
    if let Event::Ended { at, .. } = event {
        if given.is_counted {
            add_line(told, &reply_line(&Reply::Counted { at }));
        }
    }
    if let Some(act) = given.act {
        add_line(told, &reply_line(&Reply::Act(act)));
    }
}

/// Adds a line with its end, where there is room, as there is.
fn add_line(told: &mut ArrayVec<u8, TOLD>, line: &ShortText) {
    let _ = told.try_extend_from_slice(line.as_slice());
    let _ = told.try_extend_from_slice(b"\n");
}
