//! The laws of a journal.
ghost use Rattle.std.specs.Prelude.{◌≡◌, ℕ, List, ◌++◌, ◌∷◌, [], false, option_to_list};
ghost use Rattle.qn_model.specs.declared.configuration.Settings.{Settings};
ghost use Rattle.qn_model.specs.declared.entries.Entry.{Entry};
ghost use Rattle.qn_model.specs.declared.entries.What.{What};
ghost use Rattle.qn_model.specs.declared.outputs.Out.{Out};
ghost use Rattle.qn_model.specs.Holding.{holds};
ghost use Rattle.qn_model.specs.Log.{now};
ghost use Rattle.qn_model.specs.NodeOutputs.{log_of};
ghost use Rattle.qn_model.specs.NodeVotes.{answer_with_tie};
ghost use Rattle.qn_live.specs.declared.standing.Standing.{Standing};
ghost use Rattle.qn_notice.specs.Events.{change, events};
ghost use Rattle.qn_notice.specs.Journal.{journal_of, told};
ghost use Rattle.qn_notice.specs.Laws.{LeadsTo, holds_in, quorums_in, reset_answer, reset_answers, resets_in};

/// Law: the journal of a history with one more entry is that of the history, and then what is told of the entry.
pub fn law_journal_grows()
    ensures { (s : Settings) (me : ℕ) (history : List Entry) (entry : Entry)
        → journal_of s me (history ++ entry ∷ [])
        ≡ journal_of s me history ++ told s me (log_of s me history) entry }
{}

/// Law: of an entry it is told that the resource was won or lost exactly where the node holds otherwise than before it. So in a
/// journal won and lost alternate, beginning with won, and the last of them is whether the node holds.
pub fn law_hold_told()
    ensures once { (before after : Standing) (entry : What) (outs : List Out)
        → holds_in (events before after entry outs)
        ≡ option_to_list (change before.holds after.holds) }
    ensures journal { (s : Settings) (me : ℕ) (history : List Entry)
        → LeadsTo false (holds_in (journal_of s me history)) (holds (log_of s me history)) }
{}

/// Law: of an entry it is told that quorum was won or lost exactly where the node is quorate otherwise than before it. So in a
/// journal won and lost alternate, beginning with won, and the last of them is whether the node is quorate.
pub fn law_quorum_told()
    ensures once { (before after : Standing) (entry : What) (outs : List Out)
        → quorums_in (events before after entry outs)
        ≡ option_to_list (change before.answer.quorate after.answer.quorate) }
    ensures journal { (s : Settings) (me : ℕ) (history : List Entry)
        → let log = log_of s me history in
        LeadsTo false (quorums_in (journal_of s me history))
        (answer_with_tie s log (now log)).quorate }
{}

/// Law: it is told that a reset was written, or was not, exactly where the answer of that write came, in the same order.
pub fn law_fence_told()
    ensures once { (before after : Standing) (entry : What) (outs : List Out)
        → resets_in (events before after entry outs) ≡ option_to_list (reset_answer entry) }
    ensures journal { (s : Settings) (me : ℕ) (history : List Entry)
        → resets_in (journal_of s me history) ≡ reset_answers history }
{}
