//! The bounded take-over.
ghost use Rattle.std.specs.Prelude.{◌≡◌, ◌≤◌, ◌<◌, ◌+◌, ◌⊎◌, ℕ, true, false, List, IsTrue};
ghost use Rattle.qn_base.specs.declared.ids.Mask.{Mask};
ghost use Rattle.qn_base.specs.declared.ids.View.{View};
ghost use Rattle.qn_model.specs.declared.configuration.Settings.{Settings};
ghost use Rattle.qn_model.specs.declared.events.Event.{Event};
ghost use Rattle.qn_model.specs.declared.times.Timing.{Timing};
ghost use Rattle.qn_model.specs.Hearing.{is_free};
ghost use Rattle.qn_model.specs.Holding.{stop_due};
ghost use Rattle.qn_model.specs.Moments.{Moment, is_holder, node, tick_of};
ghost use Rattle.qn_model.specs.Log.{Line};
ghost use Rattle.qn_model.specs.NodeVotes.{install, quorate_with_tie, view};
ghost use Rattle.qn_model.specs.Steps.{AllAllowed, run};
ghost use Rattle.qn_safety.specs.declared.triple_event.TripleEvent.{TripleEvent};
ghost use Rattle.qn_safety.specs.Timed.{IsTimedRun};
ghost use Rattle.qn_safety.specs.TripleSteps.{AllAllowedTriple, run_triple};
ghost use Rattle.qn_safety.specs.declared.arbiter_event.ArbiterEvent.{ArbiterEvent};
ghost use Rattle.qn_safety.specs.declared.lease.Lease.{Lease};
ghost use Rattle.qn_safety.specs.ArbiterSteps.{AllAllowedBeside, run_beside};
ghost use Rattle.qn_progress.specs.Hearing.{HasHeld, HearsQuietly, StaysHeard};
ghost use Rattle.qn_progress.specs.Keeping.{KeepsOn};
ghost use Rattle.qn_progress.specs.Majority.{IsMajority};
ghost use Rattle.qn_progress.specs.Pace.{Pace, outside, take_over_ticks};
ghost use Rattle.qn_progress.specs.Premises.{HearsAndTakesOver, TakesOver};
ghost use Rattle.qn_progress.specs.Quiet.{
  DelaysOver,
  HasTakenTicks,
  HasTakenTime,
  IsAlone,
  QuietSince,
  StaysQuiet,
};

use qn_safety::{
    law_boots, law_clocks, law_runs_are_timed, law_runs_beside_are_timed,
    law_triple_runs_are_timed, law_up_nodes,
};

/// In a quiet world the chosen member of a view holds the resource after a bounded time, and from then on: once the nodes
/// outside the view are fenced, and each other member was heard. In ticks of its clock, in every timed run. The chosen one is
/// the member that the view names, else its least.
pub fn law_chosen_member_holds()
    ensures heard { (s : Settings) (t : Timing) (pace : Pace) (rank : ℕ) (old mid new : List Moment)
        → IsTimedRun s t new
        → StaysQuiet s t rank pace old mid new
        → HasTakenTicks s t rank pace old mid new
        → IsTrue (is_holder s new rank) }
    ensures alone { (s : Settings) (t : Timing) (pace : Pace) (rank : ℕ) (old new : List Moment)
        → IsTimedRun s t new
        → pace.disk < t.loop_ms
        → QuietSince s rank pace (install (node s rank old).log) old new
        → DelaysOver s (tick_of (node s rank old).clock) (node s rank old).log
        → IsAlone s rank (node s rank old).log
        → tick_of (node s rank old).clock + take_over_ticks t pace (outside s (node s rank old).log)
        ≤ tick_of (node s rank new).clock
        → IsTrue (is_holder s new rank) }
{
    law_clocks();
    law_up_nodes();
}

/// The same in true milliseconds: in every timed run, and after any events, each well formed and allowed in its turn, in the
/// world of one image, in that of three images, and beside an arbiter. Who holds then goes on holding while the world stays
/// quiet. The events stand newest first.
pub fn law_take_over()
    ensures timed { (s : Settings) (t : Timing) (pace : Pace) (rank : ℕ) (old mid new : List Moment)
        → IsTimedRun s t new
        → StaysQuiet s t rank pace old mid new
        → HasTakenTime s t rank pace old mid new
        → IsTrue (is_holder s new rank) }
    ensures world { (s : Settings) (t : Timing) (pace : Pace) (rank : ℕ) (events : List Event)
        (old mid : List Moment)
        → AllAllowed s t events
        → StaysQuiet s t rank pace old mid (run s t events).moments
        → HasTakenTime s t rank pace old mid (run s t events).moments
        → IsTrue (is_holder s (run s t events).moments rank) }
    ensures three_images { (s : Settings) (t : Timing) (pace : Pace) (rank : ℕ) (events : List TripleEvent)
        (old mid : List Moment)
        → AllAllowedTriple s t events
        → StaysQuiet s t rank pace old mid (run_triple s t events).moments
        → HasTakenTime s t rank pace old mid (run_triple s t events).moments
        → IsTrue (is_holder s (run_triple s t events).moments rank) }
    ensures beside { (s : Settings) (t : Timing) (pace : Pace) (rank : ℕ) (times : Lease)
        (events : List ArbiterEvent) (old mid : List Moment)
        → AllAllowedBeside s t times events
        → StaysQuiet s t rank pace old mid (run_beside s t times events).world.moments
        → HasTakenTime s t rank pace old mid (run_beside s t times events).world.moments
        → IsTrue (is_holder s (run_beside s t times events).world.moments rank) }
{
    law_clocks();
    law_runs_are_timed();
    law_runs_beside_are_timed();
    law_triple_runs_are_timed();
    law_up_nodes();
}

/// The premises are met: there are valid settings, safe timing and events, each allowed in its turn, that are quiet for as
/// long as a take-over takes, from a moment on at which nobody holds.
pub fn law_take_over_is_met()
    ensures { TakesOver }
{}

/// In a quiet world in which packets arrive in time, each other member that is up under the view of a node says within a loop, a
/// turn and the ways of two packets that it does not hold, or holds meanwhile. So the chosen member of the view, where all are up
/// under it, holds after a bounded time, or another one held. In ticks of its clock, in every timed run.
pub fn law_members_are_heard()
    ensures each { (s : Settings) (t : Timing) (pace : Pace) (rank post : ℕ) (present : View) (other : ℕ)
        (old new : List Moment)
        → IsTimedRun s t new
        → HearsQuietly s t rank pace post present other old new
        → (is_free (node s rank new).log other ≡ true) ⊎ HasHeld s other old new }
    ensures some { (s : Settings) (t : Timing) (pace : Pace) (rank post : ℕ) (present : View)
        (old mid new : List Moment)
        → IsTimedRun s t new
        → StaysHeard s t rank pace post present old mid new
        → HasTakenTicks s t rank pace old mid new
        → IsTrue (is_holder s new rank) ⊎ ((other : ℕ) × HasHeld s other old mid) }
{
    law_boots();
    law_clocks();
    law_up_nodes();
}

/// A member that held at some moment goes on holding while it runs, is up and is quorate, and its view neither names another member
/// nor bars all, where no Stop of it was unanswered when that began. Its rank, its disk and its pace do not matter.
pub fn law_holder_holds()
    ensures { (s : Settings) (rank : ℕ) (old new : List Moment)
        → KeepsOn s rank old new
        → HasHeld s rank old new
        → IsTrue (is_holder s new rank) }
{}

/// No Stop of such a node is unanswered as long as it may keep what it holds, whether it holds or not: none comes out.
pub fn law_keeper_is_calm()
    ensures { (s : Settings) (rank : ℕ) (old new : List Moment)
        → KeepsOn s rank old new
        → stop_due (node s rank new).log ≡ false }
{}

/// So in a quiet world in which packets arrive in time, and who held meanwhile keeps its quorum and its name, some node holds after a bounded
/// time: the chosen member of the view, or one that held before.
pub fn law_some_node_holds()
    ensures { (s : Settings) (t : Timing) (pace : Pace) (rank post : ℕ) (present : View) (old mid new : List Moment)
        → IsTimedRun s t new
        → StaysHeard s t rank pace post present old mid new
        → HasTakenTicks s t rank pace old mid new
        → ((other : ℕ) → HasHeld s other old mid → KeepsOn s other old new)
        → (holder : ℕ) × IsTrue (is_holder s new holder) }
{
    law_boots();
    law_clocks();
    law_up_nodes();
}

/// The premises of `law_members_are_heard` are met: there are valid settings, safe timing and allowed events with two nodes up under
/// one view, of which one asks, hears the other, and has had the time of a take-over.
pub fn law_hearing_is_met()
    ensures { HearsAndTakesOver }
{}

/// A node whose view is a majority of its own is quorate at each tick, whatever it was handed before.
pub fn law_majority_is_quorate()
    ensures { (s : Settings) (set : Mask) (log : List Line) (given : View) (tick : ℕ)
        → IsMajority s set
        → view log ≡ Some given
        → given.members ≡ set
        → quorate_with_tie s log tick ≡ true }
{}
