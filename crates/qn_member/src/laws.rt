//! The laws of the nodes that are seen and led, of the test of an announced view, and of the view maker after any list of its calls.
ghost use Rattle.std.specs.Prelude.{◌≡◌, ◌≢◌, ◌⊎◌, ◌<◌, ◌≤◌, ◌&&◌, ℕ, List, None, Some, false, true, length, option_map};
ghost use Rattle.qn_base.specs.declared.ids.Mask.{Mask};
ghost use Rattle.qn_base.specs.Members.{is_member};
ghost use Rattle.qn_model.specs.declared.nodelist.NodeEntry.{NodeEntry};
ghost use Rattle.qn_base.specs.declared.ids.View.{View};
ghost use Rattle.qn_model.specs.Votes.{votes_among};
ghost use Rattle.qn_member.specs.declared.change.Change.{Change};
ghost use Rattle.qn_base.specs.declared.ids.Said.{Said};
ghost use Rattle.qn_member.specs.Following.{FollowsItself, SameWord, HasLost, IsFollower, LeadsAble, LeadsLeast, Makes, last_says, last_seen};
ghost use Rattle.qn_member.specs.Settling.{IsLasting, IsSteady};
ghost use Rattle.qn_member.specs.Maker.{Maker, after_tick, enough_of, follows_other, has_configured, heard_nodes, is_able, is_configured, is_heard, is_led, is_visible, leader_at, led_nodes, looked, may_install, of_rank, seeing, view_at, visible_nodes};
ghost use Rattle.qn_member.specs.MakerCalls.{ChangeOf, Differs, IsOwnView, LooksBackTo, MakerRun, MayBegin, company_of, first_of, greatest_of, ids_had, is_seen, last_said, leader_found, maker_of, was_heard};

/// The members of the set of visible nodes are the configured nodes that are visible, and no other rank; and so of those
/// that a node leads.
pub fn law_visible_nodes()
    ensures visible { (m : Maker) (tick rank : ℕ)
        → is_member (visible_nodes tick m) rank ≡ (is_configured m rank && is_visible tick m rank) }
    ensures led { (m : Maker) (visible : Mask) (rank : ℕ)
        → is_member (led_nodes m visible) rank ≡ (is_configured m rank && is_led m visible rank) }
{}

/// The test that an announced view must pass holds exactly where each member is configured.
pub fn law_configured_members()
    ensures passed { (nodes : List NodeEntry) (members : Mask)
        → has_configured nodes members ≡ true
        → (rank : ℕ)
        → is_member members rank ≡ true
        → rank < length nodes }
    ensures passes { (nodes : List NodeEntry) (members : Mask)
        → ((rank : ℕ) → is_member members rank ≡ true → rank < length nodes)
        → has_configured nodes members ≡ true }
{}

/// Law: after any calls the nodes that are heard are the node itself and each configured node with a Hello at most three loops
/// ago that came since its last farewell; and of these the node itself and those whose last Hello names it are visible.
pub fn law_heard()
    ensures heard { (run : MakerRun) (tick rank : ℕ)
        → length run.settings.nodes ≤ 32
        → is_member (heard_nodes tick (maker_of run)) rank ≡ was_heard run tick rank }
    ensures seen { (run : MakerRun) (tick rank : ℕ)
        → length run.settings.nodes ≤ 32
        → is_member (visible_nodes tick (maker_of run)) rank ≡ is_seen run tick rank }
{}

/// Law: after any calls the greatest id is that of the views that were announced and installed, without their names.
pub fn law_greatest()
    ensures { (run : MakerRun) → (maker_of run).greatest ≡ greatest_of (ids_had (first_of run) run.calls) }
{}

/// Law: after any calls an own view has all of the company, none of which is below the node, and besides them present members
/// alone that are not heard; it is other than the present members; its id is above all that were announced and
/// installed, without their names, while there is one; and a present member that is heard and left out has been found out of company for three loops.
pub fn law_own_views()
    ensures { (run : MakerRun) (tick : ℕ) (view : View) → IsOwnView tick (maker_of run) view }
{}

/// Law: a first view, own or announced, comes only once all nodes are in company, or three loops passed since the first look,
/// four where somebody is heard that is not in company.
pub fn law_first_view()
    ensures { (run : MakerRun) (tick : ℕ) (view : View)
        → (maker_of run).view ≡ None
        → view_at tick (maker_of run) ≡ Some view
        → MayBegin run tick }
{}

/// Law: a change goes back to a look from which on each found another company than the present members and gave no view; and
/// its company was found by each look back to a later one of these. "Later" is for ticks that do not fall. A rank that differs
/// since a tick was found otherwise than the present view by each look back to one at that tick.
pub fn law_changes()
    ensures change { (run : MakerRun) (change : Change)
        → (maker_of run).change ≡ Some change
        → ChangeOf run change }
    ensures differs { (run : MakerRun) (rank since : ℕ)
        → rank < 32
        → of_rank (maker_of run).differs rank ≡ Some since
        → LooksBackTo (Differs rank) since (first_of run) run.calls }
{}

/// Law: where each look back to one found the same company and gave no view but of it, the node leads, nobody is in dispute,
/// and a view may be installed, the members of its view are this company from the first look on that is a loop later. Ticks
/// that fall are excepted.
pub fn law_views_settle()
    ensures { (run : MakerRun) (since tick : ℕ) (company : Mask)
        → IsSteady run since tick company
        → option_map (λ view. view.members) (after_tick tick (maker_of run)).view ≡ Some company }
{}

/// Law: where each look back to one found the same company at the node, which led it, and one of them is three loops later, the
/// members of its view are this company from the first look on that is a loop later again, whoever was in dispute or in doubt,
/// and whatever other views came on the way. Ticks that fall are excepted.
pub fn law_views_settle_at_last()
    ensures { (run : MakerRun) (since mid tick : ℕ) (company : Mask)
        → length run.settings.nodes ≤ 32
        → IsLasting run since mid tick company
        → option_map (λ view. view.members) (after_tick tick (maker_of run)).view ≡ Some company }
{}

/// Law: whoever has another node as its leader has the view that this announced last, where that has both of them.
pub fn law_follows()
    ensures { (run : MakerRun) (tick leader : ℕ) (view : View)
        → leader_found tick (maker_of run) ≡ Some leader
        → leader ≢ run.me
        → of_rank (maker_of run).announced leader ≡ Some view
        → is_member view.members run.me ≡ true
        → is_member view.members leader ≡ true
        → may_install tick (looked tick (maker_of run)) (company_of tick (maker_of run)) ≡ true
        → (after_tick tick (maker_of run)).view ≡ Some view }
{}

/// Law: where two view makers make own views with a third node that both hear, and its last Hello is one and the same for both,
/// it says that it follows nobody, or one of the two forgot whom it follows: one Hello counts on one side.
pub fn law_one_side()
    ensures { (one other : MakerRun) (tick other_tick rank : ℕ) (a b : View) (said : Said)
        → length one.settings.nodes ≤ 32
        → length other.settings.nodes ≤ 32
        → one.me ≢ other.me
        → rank ≢ one.me
        → rank ≢ other.me
        → Makes one tick a
        → Makes other other_tick b
        → is_member a.members rank ≡ true
        → is_member b.members rank ≡ true
        → is_heard tick (maker_of one) rank ≡ true
        → is_heard other_tick (maker_of other) rank ≡ true
        → last_said one rank ≡ Some said
        → last_said other rank ≡ Some said
        → (said.follows ≡ None)
        ⊎ ((is_member (looked tick (maker_of one)).forgotten rank ≡ true)
        ⊎ (is_member (looked other_tick (maker_of other)).forgotten rank ≡ true)) }
{}

/// Law: it is forgotten whom a node follows only where a look since its last Hello did not see that one any more, and the look
/// before it did. What the last look saw, and what it made a Hello say, stays until the next one.
pub fn law_forgotten()
    ensures lost { (run : MakerRun) (rank : ℕ)
        → rank < length run.settings.nodes
        → is_member (maker_of run).forgotten rank ≡ true
        → HasLost rank (first_of run) run.calls }
    ensures seen { (run : MakerRun) → (maker_of run).seen ≡ last_seen (first_of run) run.calls }
    ensures says { (run : MakerRun) → (maker_of run).says ≡ last_says (first_of run) run.calls }
{}

/// Law: who leads is the least of the able visible nodes up to the own rank; where none is able it is the least visible node.
pub fn law_leads()
    ensures { (m : Maker) (leader : ℕ)
        → leader_at m ≡ Some leader
        → LeadsAble m leader ⊎ LeadsLeast m leader }
{}

/// Law: where an able node leads, and nobody of greater rank that it sees follows another, its company has the votes that a side
/// needs of its own nodes.
pub fn law_leader_has_enough()
    ensures { (run : MakerRun) (tick : ℕ)
        → leader_found tick (maker_of run) ≡ Some run.me
        → is_able (seeing tick (maker_of run)) (visible_nodes tick (maker_of run)) ≡ true
        → ((rank : ℕ)
        → is_member (visible_nodes tick (maker_of run)) rank ≡ true
        → run.me < rank
        → follows_other (seeing tick (maker_of run)) rank ≡ false)
        → enough_of run.settings ≤ votes_among run.settings.nodes (company_of tick (maker_of run)) }
{}

/// Law: where an able node leads, and of each node of greater rank that it sees the last Hello was of a look at which this
/// leader was the least able node that it saw, its company has the votes that a side needs of its own nodes.
pub fn law_followers_are_enough()
    ensures { (run : MakerRun) (tick : ℕ) (others : ℕ → MakerRun) (looks : ℕ → ℕ)
        → length run.settings.nodes ≤ 32
        → leader_found tick (maker_of run) ≡ Some run.me
        → is_able (seeing tick (maker_of run)) (visible_nodes tick (maker_of run)) ≡ true
        → ((rank : ℕ)
        → is_member (visible_nodes tick (maker_of run)) rank ≡ true
        → run.me < rank
        → ((others rank).me ≡ rank) × IsFollower run (others rank) (looks rank))
        → enough_of run.settings ≤ votes_among run.settings.nodes (company_of tick (maker_of run)) }
{}

/// Law: the companies of two leaders have nobody in common, where of each third node that is in both the last Hello is one and
/// the same for both, says whom it follows, and is not forgotten; and where the greater leader, if the lesser one has it in
/// company, said there that it follows itself.
pub fn law_companies_apart()
    ensures { (one other : MakerRun) (tick other_tick : ℕ)
        → length one.settings.nodes ≤ 32
        → length other.settings.nodes ≤ 32
        → one.me < other.me
        → leader_found tick (maker_of one) ≡ Some one.me
        → leader_found other_tick (maker_of other) ≡ Some other.me
        → ((rank : ℕ)
        → rank ≢ other.me
        → is_member (company_of tick (maker_of one)) rank ≡ true
        → is_member (company_of other_tick (maker_of other)) rank ≡ true
        → SameWord one other tick other_tick rank)
        → (is_member (company_of tick (maker_of one)) other.me ≡ true
        → FollowsItself one tick other.me)
        → (rank : ℕ)
        → is_member (company_of tick (maker_of one)) rank ≡ true
        → is_member (company_of other_tick (maker_of other)) rank ≢ true }
{}
