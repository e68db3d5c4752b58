//! The laws of what running nodes say and hear.
ghost use Rattle.qn_model.specs.declared.configuration.Settings.{Settings};
ghost use Rattle.qn_model.specs.declared.times.Timing.{Timing};
ghost use Rattle.qn_service.specs.Announced.{FollowersKeep, LooksKnowViews, ViewsAreAnnounced};
ghost use Rattle.qn_service.specs.Hellos.{HellosAreMet, HellosAreSaid, LooksFindSets, LooksHear, LooksKnowWords, LooksSee};

/// Law: a node that is up and keeps its pace says a Hello to each other one at least each half loop and two turns.
pub fn law_hellos_are_said()
    ensures { (s : Settings) (t : Timing) → HellosAreSaid s t }
{
    qn_safety::law_any_runs_are_timed();
    qn_safety::law_clocks();
    qn_sector::law_read_back();
    qn_joined::law_worlds();
    qn_joined::law_each_is_one_event();
}

/// Law: such a node announces a view to each other one as often, from a look on that leaves it announcing that, while each look does.
pub fn law_views_are_announced()
    ensures { (s : Settings) (t : Timing) → ViewsAreAnnounced s t }
{
    qn_safety::law_any_runs_are_timed();
    qn_safety::law_clocks();
    qn_sector::law_read_back();
    qn_joined::law_worlds();
    qn_joined::law_each_is_one_event();
}

/// Law: each look of a node that is up and keeps its pace hears each other such node from which packets come in time, and which says no
/// farewell, once a beat, some turns and the way of a packet have passed.
pub fn law_looks_hear()
    ensures { (s : Settings) (t : Timing) → LooksHear s t }
{
    qn_safety::law_any_runs_are_timed();
    qn_safety::law_clocks();
    qn_sector::law_read_back();
    qn_joined::law_worlds();
    qn_joined::law_each_is_one_event();
}

/// Law: what each look of such a node knows another one to have said last passes a test, where that looks often, its Hellos are its own, and what
/// each look of it leaves to be said passes the test.
pub fn law_looks_know_words()
    ensures { (s : Settings) (t : Timing) → LooksKnowWords s t }
{
    qn_safety::law_any_runs_are_timed();
    qn_safety::law_clocks();
    qn_sector::law_read_back();
    qn_joined::law_worlds();
    qn_joined::law_each_is_one_event();
}

/// Law: each look of such a node sees each other one that stays in sight: of which the last Hello came within three loops, and names it.
pub fn law_looks_see()
    ensures { (s : Settings) (t : Timing) → LooksSee s t }
{
    qn_safety::law_any_runs_are_timed();
    qn_safety::law_clocks();
    qn_sector::law_read_back();
    qn_joined::law_worlds();
    qn_joined::law_each_is_one_event();
}

/// Law: so each look of a node of a set whose nodes stay in sight of one another, and to which no Hello of another node comes, sees just the set.
pub fn law_looks_find_sets()
    ensures { (s : Settings) (t : Timing) → LooksFindSets s t }
{
    qn_safety::law_any_runs_are_timed();
    qn_safety::law_clocks();
    qn_sector::law_read_back();
    qn_joined::law_worlds();
    qn_joined::law_each_is_one_event();
    law_looks_see();
}

/// Law: so each look of a node that is near one knows the view that it announces as what it announced last, while it hears no other one of it.
pub fn law_looks_know_views()
    ensures { (s : Settings) (t : Timing) → LooksKnowViews s t }
{
    qn_safety::law_any_runs_are_timed();
    qn_safety::law_clocks();
    qn_sector::law_read_back();
    qn_joined::law_worlds();
    qn_joined::law_each_is_one_event();
}

/// Law: so a node that such a leader leads at each look keeps the view that it announces, once a look left it, with what `law_views_are_kept` asks.
pub fn law_followers_keep()
    ensures { (s : Settings) (t : Timing) → FollowersKeep s t }
{
    qn_safety::law_any_runs_are_timed();
    qn_safety::law_clocks();
    qn_sector::law_read_back();
    qn_joined::law_worlds();
    qn_joined::law_each_is_one_event();
    law_looks_know_views();
}

/// The premises of `law_looks_hear` are met, and so are those of `law_hellos_are_said`: in a joined run with safe times a node hears another one.
pub fn law_hellos_are_met()
    ensures { HellosAreMet }
{}
