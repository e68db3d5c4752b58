//! The tie breaker, from the tally of a history.

use crate::tally::Tally;
use qn_base::Rank;
use qn_model::Settings;

impl Tally {
    ghost use Rattle.std.specs.Prelude.{◌≡◌, find};
    ghost use Rattle.qn_plain.specs.Tally.{is_seen_in, tally_breaks, tally_tie_node, was_in_majority_of};

    /// Whether the present view has exactly half of the expected votes, and the tie node (votequorum(5),
    /// `auto_tie_breaker`).
    pub fn breaks_tie(&self, settings: &Settings) -> bool
        ensures { result ≡ tally_breaks settings.now self.now }
    {
        2 * self.view_votes(settings) == self.expected
            && self.tie_node(settings).is_some_and(|rank| self.sees(rank))
    }

    /// The tie node: the first of the order that was in the last view of a majority.
    fn tie_node(&self, settings: &Settings) -> Option<Rank>
        ensures { result ≡ tally_tie_node settings.now self.now }
    {
        match &settings.tie {
            Some(order) => self.first_in_majority(settings, order.as_slice()),
            None => None,
        }
    }

    fn first_in_majority(&self, settings: &Settings, ranks: &[Rank]) -> Option<Rank>
        ensures { result
            ≡ find (λ rank. was_in_majority_of settings.now self.now rank.0) ranks.now }
    {
        ranks
            .iter()
            .copied()
            .find(|rank| self.was_in_majority(settings, *rank))
    }

    /// Whether a rank was in the last view of a majority; where there was none, each configured node was.
    fn was_in_majority(&self, settings: &Settings, rank: Rank) -> bool
        ensures { result ≡ was_in_majority_of settings.now self.now rank.0 }
    {
        match self.majority {
            Some(view) => view.members.has(rank),
            None => usize::from(rank.0) < settings.nodes.len(),
        }
    }

    /// Whether a rank is a member of the present view.
    fn sees(&self, rank: Rank) -> bool
        ensures { result ≡ is_seen_in self.now rank.0 }
    {
        match self.view {
            Some(view) => view.members.has(rank),
            None => false,
        }
    }
}
