//! The law of halves.

ghost use Rattle.std.specs.Prelude.{◌≡◌, ℕ, List, ◌∷◌, Some, None, IsTrue};
ghost use Rattle.qn_base.specs.declared.ids.View.{View};
ghost use Rattle.qn_model.specs.declared.configuration.Settings.{Settings};
ghost use Rattle.qn_model.specs.declared.votes.VoteEntry.{VoteEntry};
ghost use Rattle.qn_model.specs.Laws.{AreDisjoint};
ghost use Rattle.qn_model.specs.Log.{Line};
ghost use Rattle.qn_model.specs.NodeVotes.{quorate_with_tie, view};
ghost use Rattle.qn_model.specs.Votes.{newer_view};
ghost use Rattle.qn_tie.specs.declared.breaker.Tie.{Tie};
ghost use Rattle.qn_tie.specs.Halves.{SplitAlike};
ghost use Rattle.qn_tie.specs.Premises.{OneHalfGoesOn};
ghost use Rattle.qn_tie.specs.Tie.{TieFor};

use qn_model::{law_disjoint_votes, law_present_view};

/// A breaker that stands for a vote list stands for it with one more entry that is no view.
pub fn law_tie_stays()
    ensures { (tie : Tie) (s : Settings) (entry : VoteEntry) (past : List VoteEntry)
        → newer_view entry.what None ≡ None
        → TieFor tie s past
        → TieFor tie s (entry ∷ past) }
{}

/// Two nodes with the tie breaker on, whose last views of a majority have the same members, and which expect
/// equally many votes, at least those of all nodes: where their present views have no node in common, they
/// are never both quorate, whether by the votes or by the breaker.
pub fn law_tie_halves()
    ensures { (s : Settings) (first second : List Line) (tick later : ℕ) (left right : View)
        → SplitAlike s first second
        → view first ≡ Some left
        → view second ≡ Some right
        → AreDisjoint left right
        → IsTrue (quorate_with_tie s first tick)
        → ¬ IsTrue (quorate_with_tie s second later) }
{
    law_disjoint_votes();
    law_present_view();
}

/// The premises are met: there are valid settings of nodes with different ids, and two nodes with such views and
/// histories, of which the first is quorate by the breaker.
pub fn law_tie_premises_are_met()
    ensures { OneHalfGoesOn }
{}
