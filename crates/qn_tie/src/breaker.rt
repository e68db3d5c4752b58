//! The tie breaker: what it keeps, and when it breaks a tie.

use qn_base::{Rank, View};
use qn_model::{Order, Settings};

/// The tie breaker of one node: the nodes in order of preference where it is on, how many nodes are
/// configured, and the last view of more than half of the expected votes (votequorum(5),
/// `auto_tie_breaker`; that a list is tried over that view is this project's profile).
#[derive(Drop)]
pub struct Tie {
    order: Option<Order>,
    nodes: usize,
    majority: Option<View>,
}

impl Tie {
    ghost use Rattle.std.specs.Prelude.{◌≡◌, ℕ, List, [], ◌∷◌, Some, find};
    ghost use Rattle.qn_model.specs.declared.configuration.Settings.{Settings};
    ghost use Rattle.qn_model.specs.declared.votes.VoteEntry.{VoteEntry};
    ghost use Rattle.qn_model.specs.Tie.{breaks_tie};
    ghost use Rattle.qn_model.specs.Votes.{expected_votes, present_view, view_votes, votes_among};
    ghost use Rattle.qn_tie.specs.Tie.{TieFor, breaks, has_preferred, installs, is_before, preferred, with_view};

    /// The breaker of a node that has seen no view.
    #[tactic(auto, unfolding(qn_model::specs::Tie::majority_view))]
    pub fn new(settings: &Settings) -> Self
        ensures { TieFor result settings.now [] }
    {
        Tie {
            order: settings.tie.as_ref().map(Order::copy),
            nodes: settings.nodes.len(),
            majority: None,
        }
    }

    /// Takes in a view with its votes, and the expected votes after it: from then on it is the last view of a
    /// majority, where it has more than half of them.
    pub fn on_view(&mut self, view: View, votes: u64, expected: u64)
        ensures value { self.new ≡ with_view view votes expected self.old }
        ensures stands { (s : Settings) (past : List VoteEntry) (tick : ℕ)
            → TieFor self.old s past
            → votes ≡ votes_among s.nodes view.members
            → expected ≡ expected_votes s (installs tick view ∷ past)
            → TieFor self.new s (installs tick view ∷ past) }
    {
        if votes > expected / 2 {
            self.majority = Some(view);
        }
    }

    /// Whether the breaker lets a node be quorate in that view, with these votes of it and these expected
    /// votes, once the node is released: they are exactly half, and the tie node is in the view.
    pub fn breaks(&self, view: View, votes: u64, expected: u64) -> bool
        ensures value { result ≡ breaks self.now view votes expected }
        ensures stands { (s : Settings) (past : List VoteEntry)
            → TieFor self.now s past
            → present_view past ≡ Some view
            → votes ≡ view_votes s past
            → expected ≡ expected_votes s past
            → result ≡ breaks_tie s past }
    {
        expected % 2 == 0 && votes == expected / 2 && self.is_tie_node_in(view)
    }

    /// An equal breaker.
    pub fn copy(&self) -> Self
        ensures { result ≡ self.now }
    {
        Tie {
            order: self.order.as_ref().map(Order::copy),
            nodes: self.nodes,
            majority: self.majority,
        }
    }

    // Whether there is a tie node, and it is in that view.
    fn is_tie_node_in(&self, view: View) -> bool
        ensures { result ≡ has_preferred self.now view }
    {
        match self.tie_node() {
            Some(rank) => view.members.has(rank),
            None => false,
        }
    }

    // The tie node: the first of the order that was in the last view of a majority.
    fn tie_node(&self) -> Option<Rank>
        ensures { result ≡ preferred self.now }
    {
        match &self.order {
            Some(order) => self.first_in_majority(order),
            None => None,
        }
    }

    // The first of an order that was in the last view of a majority.
    fn first_in_majority(&self, order: &Order) -> Option<Rank>
        ensures { result ≡ find (is_before self.now) order.now }
    {
        order
            .as_slice()
            .iter()
            .copied()
            .find(|rank| self.was_in_majority(*rank))
    }

    // Whether a rank was in the last view of a majority; where there was none, each configured node is.
    fn was_in_majority(&self, rank: Rank) -> bool
        ensures { result ≡ is_before self.now rank }
    {
        match self.majority {
            Some(view) => view.members.has(rank),
            None => usize::from(rank.0) < self.nodes,
        }
    }
}
