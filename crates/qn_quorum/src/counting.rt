//! The count of votes and the entries that change it.
ghost use Rattle.std.specs.Prelude.{◌≡◌, ◌≤◌};

use crate::deadlines::Deadline;
use qn_base::View;
use qn_model::{Answer, Device, Settings};

/// The count of votes of one node: what its entries so far come to. Ticks are milliseconds of the node's
/// clock.
#[derive(Drop)]
pub struct Quorum {
    settings: Settings,
    present: Option<Present>,
    expected: u64,
    released: bool,
}

/// What is kept of the present view: the votes of its members, and with those of the device; the end of the
/// window of last man standing, and until when the device's standing yes counts.
#[derive(Clone, Copy)]
struct Present {
    votes: u64,
    votes_with_device: u64,
    window_end: Deadline,
    agreed_until: Option<Deadline>,
}

impl Present {
    ghost use Rattle.std.specs.Prelude.{◌≡◌};
    ghost use Rattle.qn_quorum.specs.Counting.{votes_at};

    /// The votes that count at a tick: the device's too, as long as its yes counts.
    fn votes_at(self, now: u64) -> u64
        ensures { result ≡ votes_at now self }
    {
        match self.agreed_until {
            Some(until) if !until.is_reached(now) => self.votes_with_device,
            _ => self.votes,
        }
    }
}

impl Quorum {
    ghost use Rattle.std.specs.Prelude.{◌≡◌, ◌≤◌, [], ◌∷◌, List, Some, None, if◌then◌else◌};
    ghost use Rattle.qn_model.specs.declared.configuration.Settings.{Settings};
    ghost use Rattle.qn_model.specs.declared.votes.VoteEntry.{VoteEntry};
    ghost use Rattle.qn_model.specs.declared.votes.VoteWhat.{VoteWhat};
    ghost use Rattle.qn_model.specs.Votes.{answer_at};
    ghost use Rattle.qn_quorum.specs.Agreed.{agreed_until};
    ghost use Rattle.qn_quorum.specs.Counting.{count_at, counted, is_last_man, votes_of_device, with_device, with_last_man, with_view};
    ghost use Rattle.qn_quorum.specs.Quorum.{QuorumFor};

    /// The count of a node that has just booted, under these settings.
    pub fn new(settings: &Settings) -> Self
        ensures { QuorumFor result settings.now [] }
    {
        Quorum {
            settings: settings.copy(),
            present: None,
            expected: settings.expected,
            released: !settings.wait_for_all,
        }
    }

    /// A view is installed at this tick.
    pub fn on_view(&mut self, tick: u64, view: View)
        ensures { (s : Settings) (votes : List VoteEntry)
            → QuorumFor self.old s votes
            → QuorumFor self.new s (record { tick = tick; what = VoteWhat.View view } ∷ votes) }
    {
        self.install(tick, view);
        self.ask_last_man(tick);
    }

    /// The quorum device answers at this tick: whether it gives its votes.
    pub fn on_device(&mut self, tick: u64, yes: bool)
        ensures { (s : Settings) (votes : List VoteEntry)
            → QuorumFor self.old s votes
            → QuorumFor self.new s (record { tick = tick; what = VoteWhat.Device yes } ∷ votes) }
    {
        self.hear_device(tick, yes);
        self.ask_last_man(tick);
    }

    /// Another node's word releases this one from wait_for_all at this tick.
    pub fn on_released(&mut self, tick: u64)
        ensures { (s : Settings) (votes : List VoteEntry)
            → QuorumFor self.old s votes
            → QuorumFor self.new s (record { tick = tick; what = VoteWhat.Released } ∷ votes) }
    {
        self.released = true;
        self.ask_last_man(tick);
    }

    /// Nothing but time passed up to this tick.
    pub fn on_tick(&mut self, tick: u64)
        ensures { (s : Settings) (votes : List VoteEntry)
            → QuorumFor self.old s votes
            → QuorumFor self.new s (record { tick = tick; what = VoteWhat.Tick } ∷ votes) }
    {
        self.ask_last_man(tick);
    }

    /// The count at this tick, after the entries so far.
    #[inline(always)]
    pub fn answer(&self, tick: u64) -> Answer
        ensures { (s : Settings) (votes : List VoteEntry)
            → QuorumFor self.now s votes
            → result ≡ answer_at s votes tick }
    {
        self.count(tick)
    }

    /// An equal count: it stands for each vote list that this one stands for.
    pub fn copy(&self) -> Self
        ensures equal { result ≡ self.now }
        ensures stands { (s : Settings) (votes : List VoteEntry)
            → QuorumFor self.now s votes
            → QuorumFor result s votes }
    {
        Quorum {
            settings: self.settings.copy(),
            present: self.present,
            expected: self.expected,
            released: self.released,
        }
    }

    /// Takes a view in, before last man standing is asked (votequorum(5), "expected_votes": more votes
    /// raise them at once).
    fn install(&mut self, tick: u64, view: View)
        ensures { self.new ≡ with_view tick view self.old }
    {
        let votes = self.settings.nodes.votes_among(view.members);
        let all = self.settings.nodes.are_all_in(view.members);
        self.present = Some(Present {
            votes,
            votes_with_device: votes + self.votes_of_device(),
            window_end: Deadline::after(tick, self.settings.window),
            agreed_until: None,
        });
        self.expected = self.expected.max(votes);
        self.released = all || self.released;
    }

    /// Takes an answer of the device in. It is about the present view, and a later view ends it.
    fn hear_device(&mut self, tick: u64, yes: bool)
        ensures { self.new ≡ with_device tick yes self.old }
    {
        let until = self.agreed_until(tick, yes);
        if let Some(present) = &mut self.present {
            present.agreed_until = until;
        }
    }

    fn agreed_until(&self, tick: u64, yes: bool) -> Option<Deadline>
        ensures { let since = if yes then Some tick else None in
            result ≡ agreed_until self.now.settings.device since }
    {
        match self.settings.device {
            Some(device) if yes => Some(Deadline::after(tick, device.timeout)),
            _ => None,
        }
    }

    /// Lowers the expected votes to those of the present view where last man standing says so.
    fn ask_last_man(&mut self, now: u64)
        ensures { self.new ≡ with_last_man now self.old }
    {
        if let Some(present) = self.present
            && self.is_last_man(present, now)
        {
            self.expected = present.votes;
        }
    }

    /// votequorum(5), "last_man_standing".
    fn is_last_man(&self, present: Present, now: u64) -> bool
        ensures { result ≡ is_last_man self.now present now }
    {
        let votes = present.votes;
        self.settings.last_man_standing
            && present.window_end.is_reached(now)
            && self.released
            && votes >= self.settings.quorum(self.expected)
            && votes < self.expected
    }

    #[inline(always)]
    fn count(&self, now: u64) -> Answer
        ensures { result ≡ count_at self.now now }
    {
        let votes = self.counted(now);
        let quorum = self.settings.quorum(self.expected);
        Answer {
            quorate: self.present.is_some() && self.released && votes >= quorum,
            votes,
            quorum,
            expected: self.expected,
            released: self.released,
        }
    }

    fn counted(&self, now: u64) -> u64
        ensures { result ≡ counted self.now now }
    {
        match self.present {
            Some(present) => present.votes_at(now),
            None => 0,
        }
    }

    /// The device's votes: with last man standing they count for nothing (this project's profile).
    fn votes_of_device(&self) -> u64
        ensures sum { result ≡ votes_of_device self.now.settings }
        ensures fits { result ≤ 4294967295 }
    {
        match self.settings.device {
            Some(device) if !self.settings.last_man_standing => votes_of(device),
            _ => 0,
        }
    }
}

fn votes_of(device: Device) -> u64
    ensures votes { result ≡ device.votes }
    ensures fits { result ≤ 4294967295 }
{
    u64::from(device.votes)
}
