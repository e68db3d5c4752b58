//! The laws of a view maker that names.
ghost use Rattle.std.specs.Prelude.{◌≡◌, ◌≢◌, ℕ, List, Option, Some, true};
ghost use Rattle.qn_base.specs.declared.ids.View.{View};
ghost use Rattle.qn_candidate.specs.Candidate.{named_by};
ghost use Rattle.qn_candidate.specs.Numbers.{number_of};
ghost use Rattle.qn_model.specs.declared.configuration.Settings.{Settings};
ghost use Rattle.qn_member.specs.Maker.{led_by};
ghost use Rattle.qn_member.specs.Naming.{NamingMaker, is_own, knows_bit};
ghost use Rattle.qn_member.specs.NamingCalls.{IsPlain, SilentCall, silent_maker};
ghost use Rattle.qn_member.specs.NamingViews.{after_found, chosen_by, facts_seen, handed, looked_by_name, may_not_start, named_now, view_found};

/// Law: while the node says nothing of itself it is a view maker without names, whatever the others say of themselves: after any
/// calls it knows the same, and each answer is the same.
pub fn law_silent_node()
    ensures { (s : Settings) (me loop_ms : ℕ) (calls : List SilentCall)
        → IsPlain s me loop_ms calls (silent_maker s me loop_ms calls) }
{}

/// Law: a view that a leader makes which knows names has the number of whom it names among the members.
pub fn law_named_views()
    ensures { (m : NamingMaker) (tick : ℕ) (view : View)
        → is_own m knows_bit ≡ true
        → led_by (looked_by_name tick m).maker ≡ Some (looked_by_name tick m).maker.me
        → view_found tick m ≡ Some view
        → view.id
        ≡ number_of (named_by (facts_seen (looked_by_name tick m)) view.members (named_now (looked_by_name tick m)))
        (looked_by_name tick m).maker.greatest }
{}

/// Law: a node that is barred, or unfit and does not hold, is handed no view that would choose it.
pub fn law_barred_copies()
    ensures { (m : NamingMaker) (found : Option View) (view : View)
        → may_not_start m ≡ true
        → handed found m ≡ Some view
        → chosen_by m.maker view ≢ Some m.maker.me }
{}
