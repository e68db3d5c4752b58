//! What a vote list comes to, one entry after the other.
ghost use Rattle.std.specs.Prelude.{◌≡◌, ◌≤◌, ◌+◌, nat_le};
ghost use Rattle.qn_model.specs.Votes.{votes_of_device};

use crate::spans::has_passed;
use qn_base::View;
use qn_model::{Answer, Device, Settings, VoteEntry, VoteWhat};

/// What a vote list comes to: the present view and its tick, whether the node is released, the expected
/// votes, the tick of the device's standing yes, and the last view of a majority.
#[derive(Clone, Copy)]
pub struct Tally {
    pub view: Option<View>,
    pub view_tick: u64,
    pub released: bool,
    pub expected: u64,
    pub device_yes: Option<u64>,
    pub majority: Option<View>,
}

impl Tally {
    ghost use Rattle.std.specs.Prelude.{◌≡◌, ◌≤◌, ◌+◌, ◌*◌, [], ◌∷◌, List};
    ghost use Rattle.qn_model.specs.Tie.{majority_of};
    ghost use Rattle.qn_model.specs.declared.votes.VoteEntry.{VoteEntry};
    ghost use Rattle.qn_plain.specs.Tally.{tally_after, tally_answer, tally_counted, tally_device, tally_lowers, tally_of, tally_votes, tally_with_tie, with_entry, with_lowered, with_majority};

    /// The tally of no entries.
    #[tactic(auto, unfolding(qn_model::specs::Votes::present_view, qn_model::specs::Votes::view_tick, qn_model::specs::Votes::is_released, qn_model::specs::Votes::expected_votes, qn_model::specs::Votes::device_yes, qn_model::specs::Tie::majority_view))]
    pub fn new(settings: &Settings) -> Self
        ensures { result ≡ tally_of settings.now [] }
    {
        Tally {
            view: None,
            view_tick: 0,
            released: !settings.wait_for_all,
            expected: settings.expected,
            device_yes: None,
            majority: None,
        }
    }

    /// Takes in the next entry of the list.
    pub fn push(&mut self, settings: &Settings, entry: &VoteEntry)
        ensures after { self.new ≡ tally_after settings.now entry.now self.old }
        ensures stands { (past : List VoteEntry)
            → self.old ≡ tally_of settings.now past
            → self.new ≡ tally_of settings.now (entry.now ∷ past) }
    {
        self.take_in(settings, entry);
        self.lower(settings, entry.tick);
        self.note_majority(settings, entry.what);
    }

    /// The count at a tick, by the votes alone.
    pub fn answer(&self, settings: &Settings, now: u64) -> Answer
        ensures { result ≡ tally_answer settings.now self.now now }
    {
        let votes = self.counted_votes(settings, now);
        let quorum = settings.quorum(self.expected);
        Answer {
            quorate: self.view.is_some() && self.released && votes >= quorum,
            votes,
            quorum,
            expected: self.expected,
            released: self.released,
        }
    }

    /// The count at a tick, with the tie breaker.
    pub fn answer_with_tie(&self, settings: &Settings, now: u64) -> Answer
        ensures { result ≡ tally_with_tie settings.now self.now now }
    {
        let mut answer = self.answer(settings, now);
        answer.quorate = answer.quorate || self.released && self.breaks_tie(settings);
        answer
    }

    fn take_in(&mut self, settings: &Settings, entry: &VoteEntry)
        ensures { self.new ≡ with_entry settings.now entry.now self.old }
    {
        match entry.what {
            VoteWhat::View(view) => {
                self.view = Some(view);
                self.view_tick = entry.tick;
                self.released = settings.nodes.are_all_in(view.members) || self.released;
                self.expected = self.expected.max(settings.nodes.votes_among(view.members));
                self.device_yes = None;
            }
            VoteWhat::Device(agrees) => self.device_yes = agrees.then_some(entry.tick),
            VoteWhat::Released => self.released = true,
            VoteWhat::Tick => {}
        }
    }

    fn lower(&mut self, settings: &Settings, now: u64)
        ensures { self.new ≡ with_lowered settings.now now self.old }
    {
        if self.lowers(settings, now) {
            self.expected = self.view_votes(settings);
        }
    }

    /// Keeps the view of an entry that was taken in, where it has more than half of the expected votes.
    fn note_majority(&mut self, settings: &Settings, what: VoteWhat)
        ensures { self.new ≡ with_majority settings.now what self.old }
    {
        self.majority = self.majority_of(settings, what).or(self.majority);
    }

    fn majority_of(&self, settings: &Settings, what: VoteWhat) -> Option<View>
        ensures { result ≡ majority_of settings.now self.now.expected what }
    {
        match what {
            VoteWhat::View(view) => {
                let votes = settings.nodes.votes_among(view.members);
                if 2 * votes > self.expected {
                    Some(view)
                } else {
                    None
                }
            }
            VoteWhat::Device(_) | VoteWhat::Released | VoteWhat::Tick => None,
        }
    }

    /// Whether last man standing makes the present view's votes the expected ones.
    fn lowers(&self, settings: &Settings, now: u64) -> bool
        ensures { result ≡ tally_lowers settings.now self.now now }
    {
        let votes = self.view_votes(settings);
        settings.last_man_standing
            && self.view.is_some()
            && has_passed(self.view_tick, settings.window, now)
            && self.released
            && votes >= settings.quorum(self.expected)
            && votes < self.expected
    }

    /// The votes of the present view, 0 without one.
    pub fn view_votes(&self, settings: &Settings) -> u64
        ensures sum { result ≡ tally_votes settings.now self.now }
        ensures fits { result ≤ 32 * 4294967295 }
    {
        match self.view {
            Some(view) => settings.nodes.votes_among(view.members),
            None => 0,
        }
    }

    fn counted_votes(&self, settings: &Settings, now: u64) -> u64
        ensures { result ≡ tally_counted settings.now self.now now }
    {
        if self.view.is_some() {
            self.view_votes(settings) + self.device_votes(settings, now)
        } else {
            0
        }
    }

    fn device_votes(&self, settings: &Settings, now: u64) -> u64
        ensures sum { result ≡ tally_device settings.now self.now now }
        ensures fits { result ≤ 4294967295 }
    {
        match settings.device {
            Some(device) if !settings.last_man_standing => {
                votes_of_device(device, self.device_yes, now)
            }
            _ => 0,
        }
    }
}

/// The device's votes, by the tick of its standing yes: all of them below its timeout, else none.
fn votes_of_device(device: Device, agreed: Option<u64>, now: u64) -> u64
    ensures sum { result ≡ votes_of_device device agreed now }
    ensures fits { result ≤ 4294967295 }
{
    match agreed {
        Some(since) if !has_passed(since, device.timeout, now) => u64::from(device.votes),
        _ => 0,
    }
}
