//! The laws of running nodes whose looks agree on a leader.
ghost use Rattle.qn_model.specs.declared.configuration.Settings.{Settings};
ghost use Rattle.qn_model.specs.declared.times.Timing.{Timing};
ghost use Rattle.qn_service.specs.Leaders.{CompaniesAreFound, LeadersSettle};
ghost use Rattle.qn_service.specs.Announcements.{AnnouncementsCome};
ghost use Rattle.qn_service.specs.Following.{FollowersTakeIt, LooksComeToAgree, NodesServe, Service};

use crate::serving::law_looks_serve;

/// Law: where each look of some nodes sees just them and finds the same leader, each look of that leader finds all of them in company, once
/// they have looked and what they say since has come.
pub fn law_companies_are_found()
    ensures { (s : Settings) (t : Timing) → CompaniesAreFound s t }
{
    qn_safety::law_any_runs_are_timed();
    qn_safety::law_clocks();
    qn_sector::law_read_back();
    qn_joined::law_worlds();
    qn_joined::law_each_is_one_event();
}

/// Law: the view that each look of a rank leaves it with to announce is what each look of another one has of it, once a Hello of the beat was
/// said and the announcement after that has come.
pub fn law_announcements_come()
    ensures { (s : Settings) (t : Timing) → AnnouncementsCome s t }
{
    qn_safety::law_any_runs_are_timed();
    qn_safety::law_clocks();
    qn_sector::law_read_back();
    qn_joined::law_worlds();
    qn_joined::law_each_is_one_event();
}

/// Law: each other member takes the view of a leader that keeps it, once that was announced, the leader led for four loops, and it has looked since.
pub fn law_followers_come_to_it()
    ensures { (s : Settings) (t : Timing) → FollowersTakeIt s t }
{
    qn_safety::law_any_runs_are_timed();
    qn_safety::law_clocks();
    qn_sector::law_read_back();
    qn_joined::law_worlds();
    qn_joined::law_each_is_one_event();
}

/// Law: so the looks of a majority come to agree on the view of its leader, and go on to do so.
pub fn law_looks_come_to_agree()
    ensures { (s : Settings) (t : Timing) → LooksComeToAgree s t }
{
    qn_safety::law_any_runs_are_timed();
    qn_safety::law_clocks();
    qn_sector::law_read_back();
    qn_joined::law_worlds();
    qn_joined::law_each_is_one_event();
}

/// Law: a majority whose leader keeps its view has an owner, one of them, once the others have that view and the time of a take-over has passed, with
/// the premises of `law_members_serve` for the chosen one from then on.
pub fn law_nodes_serve()
    ensures { (s : Settings) (t : Timing) → NodesServe s t }
{
    law_looks_come_to_agree();
    law_looks_serve();
}

/// Law: so that leader comes to keep a view of them, where each look of it that finds them may start, has nobody in dispute, gives no view but of
/// them, and names nobody else once that is its view.
pub fn law_leaders_settle()
    ensures { (s : Settings) (t : Timing) → LeadersSettle s t }
{
    qn_safety::law_any_runs_are_timed();
    qn_safety::law_clocks();
    qn_sector::law_read_back();
    qn_joined::law_worlds();
    qn_joined::law_each_is_one_event();
}

/// Law: a majority whose looks agree has an owner, one of them, within a stated time: the leader settles, the others follow it, and one takes over.
pub fn law_service()
    ensures { (s : Settings) (t : Timing) → Service s t }
{
    law_leaders_settle();
    law_nodes_serve();
}
