//! The laws of one look of a view maker.
ghost use Rattle.std.specs.Prelude.{◌≡◌, ◌⊎◌, ◌<◌, ℕ, None, Some, false, length, true};
ghost use Rattle.std.specs.Option.{option_map};
ghost use Rattle.qn_base.specs.declared.ids.Mask.{Mask};
ghost use Rattle.qn_base.specs.declared.ids.View.{View};
ghost use Rattle.qn_base.specs.Members.{is_member};
ghost use Rattle.qn_member.specs.Maker.{is_present, least_of};
ghost use Rattle.qn_member.specs.Naming.{NamingMaker};
ghost use Rattle.qn_member.specs.NamingViews.{after_look, is_named_anew, looked_by_name, view_found, view_of};
ghost use Rattle.qn_service.specs.Agreeing.{FindAlike};
ghost use Rattle.qn_service.specs.Company.{IsLedByName, IsSettled};
ghost use Rattle.qn_service.specs.Leading.{LeavesOut, MakesView, TakesView, company_then, leader_then, names_then};

/// Law: a view that a look gives was made by it, and its node leads; or it is the view that its leader announced last, and has both
/// of them.
pub fn law_made_or_taken()
    ensures { (m : NamingMaker) (tick : ℕ) (view : View)
        → view_found tick m ≡ Some view
        → MakesView tick m view ⊎ TakesView tick m view }
{}

/// Law: who is the least member of a view that a look gives made that view itself, where not all that it sees know names. Where all
/// do, a view that names its leader was made by that.
pub fn law_least_members_made_it()
    ensures { (m : NamingMaker) (tick : ℕ) (view : View)
        → m.maker.me < length m.maker.nodes
        → names_then tick m ≡ false
        → view_found tick m ≡ Some view
        → least_of m.maker view.members ≡ Some m.maker.me
        → MakesView tick m view }
{
    qn_member::law_leads();
}

/// Law: where a look of a node that leads finds its present members in company, and would name them as before, it gives no view;
/// and after a look that gives none the present view is what it was.
pub fn law_views_stay()
    ensures none { (m : NamingMaker) (tick : ℕ)
        → leader_then tick m ≡ Some m.maker.me
        → is_present m.maker (company_then tick m) ≡ true
        → is_named_anew tick (looked_by_name tick m)
        (view_of (looked_by_name tick m) (company_then tick m))
        ≡ false
        → view_found tick m ≡ None }
    ensures stays { (m : NamingMaker) (tick : ℕ)
        → view_found tick m ≡ None
        → (after_look tick m).maker.view ≡ m.maker.view }
{}

/// Law: a configured node that a view leaves out was not in company at the look that made it. One that was a member before, and of
/// which a Hello came within three loops, was out of company for three loops; and a first view without it came only after three.
pub fn law_left_out()
    ensures { (m : NamingMaker) (tick : ℕ) (view : View) (rank : ℕ)
        → rank < length m.maker.nodes
        → MakesView tick m view
        → is_member view.members rank ≡ false
        → LeavesOut tick m rank }
{}

/// Law: where each look from one on found the same company at a node that knows names, and gave no view but of it, the members of its view
/// are this company at the first look that is a loop later, where the node leads, a view may be installed and nobody is in dispute.
pub fn law_company_is_view()
    ensures { (company : Mask) (since tick : ℕ) (m : NamingMaker)
        → IsSettled company since tick m
        → option_map (λ view. view.members) (after_look tick m).maker.view ≡ Some company }
{}

/// Law: a node that knows names and has another one as its leader has the view that this announced last, where that has both of them and is
/// newer, or its leader led for a loop.
pub fn law_followers_take_it()
    ensures { (tick : ℕ) (m : NamingMaker) (leader : ℕ) (view : View)
        → IsLedByName tick m leader view
        → (after_look tick m).maker.view ≡ Some view }
{}

/// Law: two looks, each of a node that knows names, as all do that it sees, follow the same node, where they see the same ones and find of each
/// the same: whether it is able, keeps, and is sure of its votes.
pub fn law_alike_looks_follow_one()
    ensures { (tick at : ℕ) (one other : NamingMaker)
        → FindAlike tick at one other
        → leader_then tick one ≡ leader_then at other }
{}
