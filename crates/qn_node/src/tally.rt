//! The count of votes of a node with its tie breaker, and the tick of its last view.

use crate::own::Own;
use qn_base::View;
use qn_model::{Answer, VoteWhat};
use qn_quorum::Quorum;
use qn_tie::Tie;

/// The votes of a node: the count, the tie breaker, and the present view with the tick at which it was installed,
/// in milliseconds of the node's clock, 0 without a view; and how many views were installed.
#[derive(Drop)]
pub struct Tally {
    quorum: Quorum,
    tie: Tie,
    view: Option<View>,
    view_tick: u64,
    installs: u64,
}

impl Tally {
    ghost use Rattle.std.specs.Prelude.{◌≡◌, ◌≤◌, ◌<◌, ◌+◌, ◌∷◌, [], List};
    ghost use Rattle.std.specs.Option.{option_map};
    ghost use Rattle.qn_model.specs.declared.configuration.Settings.{Settings};
    ghost use Rattle.qn_model.specs.declared.votes.VoteEntry.{VoteEntry};
    ghost use Rattle.qn_model.specs.declared.votes.VoteWhat.{VoteWhat};
    ghost use Rattle.qn_model.specs.Tie.{answer_with_tie_at, breaks_tie};
    ghost use Rattle.qn_model.specs.Votes.{expected_votes, present_view, view_tick};
    ghost use Rattle.qn_node.specs.Tally.{TallyFor, view_count};

    /// The votes of a node before its first entry.
    pub fn new(own: &Own) -> Self
        ensures stands { TallyFor result own.now.settings [] }
        ensures none { result.installs ≡ 0 }
    {
        Tally {
            quorum: Quorum::new(&own.settings),
            tie: Tie::new(&own.settings),
            view: None,
            view_tick: 0,
            installs: 0,
        }
    }

    /// Takes in what an entry at this tick is to the votes.
    pub fn count(&mut self, own: &Own, tick: u64, vote: VoteWhat)
        requires few { self.old.installs < u64.MAX }
        ensures few { self.new.installs ≤ self.old.installs + 1 }
        ensures stands { (past : List VoteEntry)
            → TallyFor self.old own.now.settings past
            → TallyFor self.new own.now.settings (record { tick = tick; what = vote } ∷ past) }
    {
        qn_tie::law_tie_stays();
        match vote {
            VoteWhat::View(view) => self.install(own, tick, view),
            VoteWhat::Device(yes) => self.quorum.on_device(tick, yes),
            VoteWhat::Released => self.quorum.on_released(tick),
            VoteWhat::Tick => self.quorum.on_tick(tick),
        }
    }

    /// A view is installed at this tick. The breaker is told of the expected votes after it.
    fn install(&mut self, own: &Own, tick: u64, view: View)
        requires few { self.old.installs < u64.MAX }
        ensures few { self.new.installs ≡ self.old.installs + 1 }
        ensures stands { (past : List VoteEntry)
            → TallyFor self.old own.now.settings past
            → TallyFor self.new own.now.settings
            (record { tick = tick; what = VoteWhat.View view } ∷ past) }
    {
        self.quorum.on_view(tick, view);
        let votes = own.settings.nodes.votes_among(view.members);
        self.tie
            .on_view(view, votes, self.quorum.answer(tick).expected);
        self.view = Some(view);
        self.view_tick = tick;
        self.installs += 1;
    }

    /// The count at this tick, after the entries so far, with the tie breaker (votequorum(5), `auto_tie_breaker`).
    #[inline(always)]
    pub fn answer(&self, own: &Own, tick: u64) -> Answer
        ensures { (past : List VoteEntry)
            → TallyFor self.now own.now.settings past
            → result ≡ answer_with_tie_at own.now.settings past tick }
    {
        let count = self.quorum.answer(tick);
        Answer {
            quorate: count.quorate || count.released && self.breaks_tie(own, count.expected),
            ..count
        }
    }

    /// Whether the breaker decides for the present view, by the expected votes.
    fn breaks_tie(&self, own: &Own, expected: u64) -> bool
        ensures { (past : List VoteEntry)
            → TallyFor self.now own.now.settings past
            → expected ≡ expected_votes own.now.settings past
            → result ≡ breaks_tie own.now.settings past }
    {
        match self.view {
            Some(view) => {
                let votes = own.settings.nodes.votes_among(view.members);
                self.tie.breaks(view, votes, expected)
            }
            None => false,
        }
    }

    /// The tick at which the present view was installed, 0 without a view.
    pub fn view_tick(&self) -> u64
        ensures { (s : Settings) (past : List VoteEntry) → TallyFor self.now s past
            → result ≡ view_tick past }
    {
        self.view_tick
    }

    /// The install number of the present view, which counts the views from 1, and the view; None without a view.
    pub fn present(&self) -> Option<(u64, View)>
        ensures { (s : Settings) (past : List VoteEntry)
            → TallyFor self.now s past
            → result ≡ option_map (λ view. (view_count past, view)) (present_view past) }
    {
        self.view.map(|view| (self.installs, view))
    }

    /// An equal one: it stands for each vote list that this one stands for.
    pub fn copy(&self) -> Self
        ensures { result ≡ self.now }
    {
        Tally {
            quorum: self.quorum.copy(),
            tie: self.tie.copy(),
            view: self.view,
            view_tick: self.view_tick,
            installs: self.installs,
        }
    }
}
