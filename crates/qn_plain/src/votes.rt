//! The public call of a count over a whole vote list.
ghost use Rattle.std.specs.Prelude.{◌≡◌, reverse};
ghost use Rattle.qn_model.specs.Votes.{answer_at};

use crate::tally::Tally;
use qn_model::{Answer, Settings, VoteEntry};

/// The count of a node at `tick`, in milliseconds, by the votes alone, after the entries of a vote list in the
/// order of time (votequorum(5); what is this project's profile is said at the definitions of
/// `qn_model/specs/Votes`).
pub fn vote_answer(settings: &Settings, votes: &[VoteEntry], tick: u64) -> Answer
    ensures { result ≡ answer_at settings.now (reverse votes.now) tick }
{
    let mut tally = Tally::new(settings);
    for entry in votes {
        tally.push(settings, entry);
    }
    tally.answer(settings, tick)
}
