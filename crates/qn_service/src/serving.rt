//! The laws of a majority that comes to have an owner.
ghost use Rattle.qn_model.specs.declared.configuration.Settings.{Settings};
ghost use Rattle.qn_model.specs.declared.times.Timing.{Timing};
ghost use Rattle.qn_service.specs.KeptViews.{LooksAreMet, LooksServe, ViewsAreKept};
ghost use Rattle.qn_service.specs.NextLooks.{CompaniesSettle, LooksFollow};
ghost use Rattle.qn_service.specs.Serving.{MembersAreMet, MembersServe};
ghost use Rattle.qn_service.specs.Shown.{CompaniesAreShown, LogsShowViews, LooksKnowNames};

use crate::owners::law_holders_run;

/// Law: at each look of a running node its view maker has of its own view and of its change what its last look left, since its node takes part.
pub fn law_looks_follow()
    ensures { (s : Settings) → LooksFollow s }
{}

/// Law: where the looks of a running node found one company for a loop, and gave no view but of it, that is the members of its view, where
/// the node leads, a view may be installed and nobody is in dispute.
pub fn law_companies_settle()
    ensures { (s : Settings) → CompaniesSettle s }
{}

/// Law: each look of a running node is one of a node that knows names, where its rank is configured and there are at most 32.
pub fn law_looks_know_names()
    ensures { (s : Settings) → LooksKnowNames s }
{}

/// Law: the present view in the log of a running node is the copy that its view maker handed on of the view that its last look left.
pub fn law_logs_show_views()
    ensures { (s : Settings) → LogsShowViews s }
{}

/// Law: the company that each look of a leader found for a loop are the members of the view in its log, with the premises of
/// `law_companies_settle`.
pub fn law_companies_are_shown()
    ensures { (s : Settings) → CompaniesAreShown s }
{}

/// Law: while each look of a running node that may start keeps its view, its log has that view at each joint: where it leads, and finds the
/// members in company and would name nobody else, or another node leads it, and announced this view last.
pub fn law_views_are_kept()
    ensures { (s : Settings) → ViewsAreKept s }
{}

/// Law: a majority whose nodes are up under one view has an owner, one of them, once the time of a take-over has passed, and at each joint
/// after that: where the chosen one keeps its pace and installs no other view, and packets between it and the others come in time.
pub fn law_members_serve()
    ensures { (s : Settings) (t : Timing) → MembersServe s t }
{
    qn_safety::law_any_runs_are_timed();
    qn_safety::law_clocks();
    qn_progress::law_majority_is_quorate();
    qn_progress::law_members_are_heard();
    qn_progress::law_chosen_member_holds();
    qn_progress::law_holder_holds();
    qn_progress::law_keeper_is_calm();
    qn_joined::law_worlds();
    qn_joined::law_each_is_one_event();
    law_holders_run();
}

/// Law: a majority whose looks agree on a view has an owner, one of them, once the time of a take-over has passed, and at each joint after that, with
/// the premises of `law_members_serve` for the chosen one, its pace and packets: each member is up, and each look of it keeps that view.
pub fn law_looks_serve()
    ensures { (s : Settings) (t : Timing) → LooksServe s t }
{
    law_members_serve();
}

/// The premises of `law_looks_serve` are met, and so are those of `law_views_are_kept`: in a joined run with safe times each look of a node that is alone
/// keeps its view for longer than a take-over takes.
pub fn law_looks_are_met()
    ensures { LooksAreMet }
{}

/// The premises of `law_members_serve` are met: in a joined run with safe times a node that is alone boots, and is up under a view of its own
/// for longer than a take-over takes.
pub fn law_members_are_met()
    ensures { MembersAreMet }
{}
