//! The laws of votes, and the law of resets.
ghost use Rattle.std.specs.Prelude.{◌≡◌, ◌≤◌, ◌+◌, ℕ, List, Some, None, IsTrue, Any, Contains, false};
ghost use Rattle.qn_base.specs.declared.ids.View.{View};
ghost use Rattle.qn_model.specs.declared.configuration.Settings.{Settings};
ghost use Rattle.qn_model.specs.declared.votes.VoteEntry.{VoteEntry};
ghost use Rattle.qn_model.specs.Laws.{AreDisjoint, IsPlainMajority};
ghost use Rattle.qn_model.specs.declared.nodelist.NodeEntry.{NodeEntry};
ghost use Rattle.qn_model.specs.Settings.{all_votes};
ghost use Rattle.qn_model.specs.Votes.{expected_votes, is_quorate, present_view, releases, votes_among};
ghost use Rattle.qn_base.specs.declared.ids.Rank.{Rank};
ghost use Rattle.qn_model.specs.declared.entries.Entry.{Entry};
ghost use Rattle.qn_model.specs.NodeVotes.{is_in_view, quorate_with_tie, view, votes};
ghost use Rattle.qn_model.specs.Licences.{is_clean};
ghost use Rattle.qn_model.specs.Log.{Line};
ghost use Rattle.qn_model.specs.Wanted.{is_delay_over};
ghost use Rattle.qn_model.specs.NodeOutputs.{log_of, outs_of, resets};

/// Under plain majority, two vote lists whose present views have no node in common are never both
/// quorate, at whatever ticks; and so two nodes, each by its whole history, where no tie is broken.
pub fn law_disjoint_views()
    ensures lists { (s : Settings) (first second : List VoteEntry) (tick later : ℕ)
        (left right : View)
        → IsPlainMajority s
        → present_view first ≡ Some left
        → present_view second ≡ Some right
        → AreDisjoint left right
        → IsTrue (is_quorate s first tick)
        → ¬ IsTrue (is_quorate s second later) }
    ensures histories { (s : Settings) (me other : ℕ) (first second : List Entry) (tick later : ℕ)
        (left right : View)
        → IsPlainMajority s
        → s.tie ≡ None
        → view (log_of s me first) ≡ Some left
        → view (log_of s other second) ≡ Some right
        → AreDisjoint left right
        → IsTrue (quorate_with_tie s (log_of s me first) tick)
        → ¬ IsTrue (quorate_with_tie s (log_of s other second) later) }
{}

/// Two views that have no node in common have at most the votes of all nodes together. Without
/// last_man_standing the expected votes are never below those of the settings.
pub fn law_disjoint_votes()
    ensures together { (nodes : List NodeEntry) (left right : View)
        → AreDisjoint left right
        → votes_among nodes left.members + votes_among nodes right.members ≤ all_votes nodes }
    ensures expected { (s : Settings) (votes : List VoteEntry)
        → s.last_man_standing ≡ false
        → s.expected ≤ expected_votes s votes }
{}

/// The vote list of a log has the log's own present view.
pub fn law_present_view()
    ensures { (log : List Line) → present_view (votes log) ≡ view log }
{}

/// With wait_for_all on, a vote list is quorate only where one of its entries released: a view of all
/// nodes, or another node's word.
pub fn law_released_first()
    ensures { (s : Settings) (votes : List VoteEntry) (tick : ℕ)
        → IsTrue s.wait_for_all
        → IsTrue (is_quorate s votes tick)
        → Any (λ entry. IsTrue (releases s entry.what)) votes }
{}

/// A node writes a reset only to a node that is outside its present view and whose slot it did not read
/// as clean in the other's out-time, and only once the other's fence delay has passed since that view.
pub fn law_reset_outside()
    ensures outside { (s : Settings) (me : ℕ) (history : List Entry) (rank : Rank)
        → Contains (outs_of s me history) (resets rank)
        → (is_in_view (log_of s me history) rank.0 ≡ false)
        × (is_clean (log_of s me history) rank.0 ≡ false) }
    ensures delayed { (s : Settings) (me : ℕ) (history : List Entry) (rank : Rank)
        → Contains (outs_of s me history) (resets rank)
        → IsTrue (is_delay_over s (log_of s me history) rank.0) }
{}
