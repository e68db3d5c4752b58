//! What a node hears of the arbiter that it polls.
ghost use Rattle.std.specs.Prelude.{◌≡◌};
ghost use Rattle.qn_told.specs.Devices.{first_of, is_early, is_told};

use crate::differing::differ;
use crate::entered::Entered;
use qn_shown::DeviceAnswer;

/// How long nothing more is told of an arbiter that stays silent, in milliseconds.
const BETWEEN: u64 = 60_000;

/// Of the arbiter that a node polls.
#[derive(Clone, Copy)]
pub struct DeviceNews {
    /// The tick of the first poll; None of a node that polled none.
    first: Option<u64>,
    /// The last answer in this view.
    answer: Option<bool>,
    /// The tick of the last answer.
    heard: Option<u64>,
    /// The last answer that was told, and the number of the view in which it came.
    told: Option<(bool, u64)>,
    /// The tick at which it was told last that the arbiter is silent.
    missed: Option<u64>,
    polls: u64,
    yes: u64,
    no: u64,
}

impl DeviceNews {
    ghost use Rattle.std.specs.Prelude.{◌≡◌, None};
    ghost use Rattle.qn_told.specs.Devices.{after_hearing, after_miss, after_taking, age_of, answer_at, answer_taken, answer_told, polled, silence_told, unpolled};

    /// A node that polled none.
    pub fn new() -> DeviceNews
        ensures { result ≡ unpolled }
    {
        DeviceNews {
            first: None,
            answer: None,
            heard: None,
            told: None,
            missed: None,
            polls: 0,
            yes: 0,
            no: 0,
        }
    }

    /// How often it polled.
    pub fn polls(&self) -> u64
        ensures { result ≡ self.now.polls }
    {
        self.polls
    }

    /// How often the arbiter said yes.
    pub fn yes(&self) -> u64
        ensures { result ≡ self.now.yes }
    {
        self.yes
    }

    /// How often the arbiter said no.
    pub fn no(&self) -> u64
        ensures { result ≡ self.now.no }
    {
        self.no
    }

    /// The node polled at that tick.
    pub fn poll(&mut self, tick: u64)
        ensures { self.new ≡ polled self.old tick }
    {
        self.first = Some(first_of(self.first, tick));
        self.polls = self.polls.saturating_add(1);
    }

    /// The node was handed that entry at that tick, and its view has that number then. The answer of the arbiter, where that is to be told: in
    /// each view the first one, and each other one.
    pub fn take(&mut self, entered: Entered, tick: u64, view: u64) -> Option<bool>
        ensures told { result ≡ answer_taken self.old entered view }
        ensures after { self.new ≡ after_taking self.old entered tick view }
    {
        match entered {
            Entered::Device(agrees) => self.hear(agrees, tick, view),
            Entered::View => {
                self.answer = None;
                None
            }
            Entered::Header(_) | Entered::Mail(_) | Entered::Stopped(_) | Entered::Nothing => None,
        }
    }

    /// The arbiter answered.
    fn hear(&mut self, agrees: bool, tick: u64, view: u64) -> Option<bool>
        ensures told { result ≡ answer_told self.old agrees view }
        ensures after { self.new ≡ after_hearing self.old agrees tick view }
    {
        self.first?;
        if agrees {
            self.yes = self.yes.saturating_add(1);
        } else {
            self.no = self.no.saturating_add(1);
        }
        let is_told = is_told(self.told, agrees, view);
        self.answer = Some(agrees);
        self.heard = Some(tick);
        self.missed = None;
        self.told = Some((agrees, view));
        if is_told { None } else { Some(agrees) }
    }

    /// For how many milliseconds no answer came at that tick; None of a node that polled none.
    pub fn age(&self, tick: u64) -> Option<u64>
        ensures { result ≡ age_of self.now tick }
    {
        match self.heard {
            Some(heard) => Some(tick.saturating_sub(heard)),
            None => Some(tick.saturating_sub(self.first?)),
        }
    }

    /// For how many milliseconds the arbiter is silent, where that is to be told at that tick: no answer came for the device's timeout, at most
    /// once a minute.
    pub fn miss(&mut self, tick: u64, timeout: u64) -> Option<u64>
        ensures told { result ≡ silence_told self.old tick timeout }
        ensures after { self.new ≡ after_miss self.old tick timeout }
    {
        let age = self.age(tick)?;
        if age < timeout || is_early(self.missed, tick) {
            return None;
        }
        self.missed = Some(tick);
        Some(age)
    }

    /// The answer at that tick: silent where none came in this view, or for the device's timeout.
    pub fn answer(&self, tick: u64, timeout: u64) -> DeviceAnswer
        ensures { result ≡ answer_at self.now tick timeout }
    {
        let is_old = match self.age(tick) {
            Some(age) => age >= timeout,
            None => true,
        };
        match self.answer {
            Some(true) if !is_old => DeviceAnswer::Yes,
            Some(false) if !is_old => DeviceAnswer::No,
            Some(_) | None => DeviceAnswer::Silent,
        }
    }
}

/// The tick of the first poll, of which one is at that tick.
fn first_of(first: Option<u64>, tick: u64) -> u64
    ensures { result ≡ first_of first tick }
{
    match first {
        Some(first) => first,
        None => tick,
    }
}

/// Whether this answer was told last, in this view.
fn is_told(told: Option<(bool, u64)>, agrees: bool, view: u64) -> bool
    ensures { result ≡ is_told told agrees view }
{
    match told {
        Some((said, number)) => !differ(said, agrees) && number == view,
        None => false,
    }
}

/// Whether the silence was told less than a minute before that tick.
fn is_early(missed: Option<u64>, tick: u64) -> bool
    ensures { result ≡ is_early missed tick }
{
    match missed {
        Some(missed) => tick < missed.saturating_add(BETWEEN),
        None => false,
    }
}
