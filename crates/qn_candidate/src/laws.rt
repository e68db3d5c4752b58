//! Laws of whom a leader names, and of what a view with that name chooses.
ghost use Rattle.std.specs.Prelude.{◌≡◌, ◌≢◌, ◌<◌, ◌≤◌, ℕ, true, false, Option, None, Some, List, length};
ghost use Rattle.qn_base.specs.Candidates.{is_barred, is_named};
ghost use Rattle.qn_base.specs.Members.{is_member};
ghost use Rattle.qn_base.specs.declared.ids.Mask.{Mask};
ghost use Rattle.qn_base.specs.declared.ids.Rank.{Rank};
ghost use Rattle.qn_base.specs.declared.ids.View.{View};
ghost use Rattle.qn_model.specs.declared.configuration.Settings.{Settings};
ghost use Rattle.qn_model.specs.Holding.{holds, may_stop};
ghost use Rattle.qn_model.specs.Log.{Line, now, timing};
ghost use Rattle.qn_model.specs.NodeOutputs.{gives_start, gives_stop};
ghost use Rattle.qn_model.specs.NodeVotes.{is_in_view, view};
ghost use Rattle.qn_model.specs.Unmet.{chosen, is_given_away, least_rank};
ghost use Rattle.qn_candidate.specs.declared.candidate.Facts.{Facts};
ghost use Rattle.qn_candidate.specs.declared.candidate.Name.{Name};
ghost use Rattle.qn_candidate.specs.declared.candidate.Name.TheVariants as name;
ghost use Rattle.qn_candidate.specs.Candidate.{best_of, can, holder_of, meets, name_of, named_by, puller, unknowing};
ghost use Rattle.qn_candidate.specs.Laws.{Chooses, IsHeaviest, IsRight};
ghost use Rattle.qn_candidate.specs.Numbers.{is_name, next_plain, number_of, without_name};

/// Law: nobody is named in particular only where some member does not read names; nobody may start only where no member can; and
/// who is named is a member that is not barred, and can, or is the holder that is fit or while no member can.
pub fn law_who_is_named()
    ensures { (f : Facts) (members : Mask) (named : Option Rank)
        → IsRight f members named (named_by f members named) }
{}

/// Law: who can meets each member that the leader sees.
pub fn law_who_can_meets_all()
    ensures { (f : Facts) (members : Mask) (rank other : ℕ)
        → can f members rank ≡ true
        → other < 32
        → is_member members other ≡ true
        → is_member f.sees other ≡ true
        → meets f rank other ≡ true }
{}

/// Law: a holder that is fit and not barred is named again, unless a member does not read names, or one that can asks for the
/// resource.
pub fn law_holder_is_kept()
    ensures { (f : Facts) (members : Mask) (named : Option Rank) (rank : ℕ)
        → unknowing f members ≡ None
        → puller f members ≡ None
        → holder_of f members named ≡ Some rank
        → is_member f.barred rank ≡ false
        → is_member f.unfit rank ≡ false
        → named_by f members named ≡ name_of (Some rank) }
{}

/// Law: where no member holds, whom the present view names and who can is named again, with the same exceptions.
pub fn law_name_is_kept()
    ensures { (f : Facts) (members : Mask) (rank : Rank)
        → unknowing f members ≡ None
        → puller f members ≡ None
        → holder_of f members (Some rank) ≡ None
        → rank.0 < 32
        → can f members rank.0 ≡ true
        → named_by f members (Some rank) ≡ name.One rank }
{}

/// Law: the best of the members can, and none that can weighs more.
pub fn law_best_is_heaviest()
    ensures { (f : Facts) (members : Mask) (rank : ℕ)
        → best_of f members ≡ Some rank
        → IsHeaviest f members rank }
{}

/// Law: a view chooses whom its number names, where that is a configured member; its least member where it names nobody; and
/// none where nobody may start.
pub fn law_names_choose()
    ensures { (s : Settings) (log : List Line) (seen : View) (named : Name) (greatest : ℕ)
        → view log ≡ Some seen
        → seen.id ≡ number_of named greatest
        → length s.nodes ≤ 32
        → Chooses s log seen.members named }
{}

/// Law: a number without its name is no name, and neither is the next one.
pub fn law_plain_numbers()
    ensures without { (number : ℕ) → is_name (without_name number) ≡ false }
    ensures next { (number : ℕ) → is_name number ≡ false → is_name (next_plain number) ≡ false }
{}

/// Law: a view whose number is no name chooses its least member.
pub fn law_plain_views()
    ensures { (s : Settings) (log : List Line) (seen : View)
        → view log ≡ Some seen
        → is_name seen.id ≡ false
        → length s.nodes ≤ 32
        → chosen s log ≡ least_rank s (λ rank. is_in_view log rank) }
{}

/// Law: who starts is chosen. So nobody starts under a view that bars all, and no other under one that names a configured member.
pub fn law_only_the_named_start()
    ensures chosen { (s : Settings) (me : ℕ) (log : List Line)
        → gives_start s me log ≡ true
        → chosen s log ≡ Some me }
    ensures barred { (s : Settings) (me : ℕ) (log : List Line) (seen : View)
        → view log ≡ Some seen
        → is_barred seen ≡ true
        → gives_start s me log ≡ false }
    ensures named { (s : Settings) (me : ℕ) (log : List Line) (seen : View) (rank : ℕ)
        → view log ≡ Some seen
        → is_named seen rank ≡ true
        → is_member seen.members rank ≡ true
        → rank < length s.nodes
        → length s.nodes ≤ 32
        → rank ≢ me
        → gives_start s me log ≡ false }
{}

/// Law: a view that bars all, or names another configured member, gives the resource away; one that names the node itself, or
/// whose number is no name, does not. A holder whose view gives it away stops as soon as a Stop may be given.
pub fn law_names_give_away()
    ensures barred { (s : Settings) (me : ℕ) (log : List Line) (seen : View)
        → view log ≡ Some seen
        → is_barred seen ≡ true
        → is_given_away s me log ≡ true }
    ensures another { (s : Settings) (me : ℕ) (log : List Line) (seen : View) (rank : ℕ)
        → view log ≡ Some seen
        → is_named seen rank ≡ true
        → is_member seen.members rank ≡ true
        → rank < length s.nodes
        → rank ≢ me
        → is_given_away s me log ≡ true }
    ensures itself { (s : Settings) (me : ℕ) (log : List Line) (seen : View)
        → view log ≡ Some seen
        → is_named seen me ≡ true
        → me < 32
        → is_given_away s me log ≡ false }
    ensures plain { (s : Settings) (me : ℕ) (log : List Line) (seen : View)
        → view log ≡ Some seen
        → is_name seen.id ≡ false
        → length s.nodes ≤ 32
        → is_given_away s me log ≡ false }
    ensures stops { (s : Settings) (me : ℕ) (log : List Line)
        → holds log ≡ true
        → is_given_away s me log ≡ true
        → may_stop (timing log).loop_ms (now log) log ≡ true
        → gives_stop s me log ≡ true }
{}
