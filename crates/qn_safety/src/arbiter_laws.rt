//! The law of one leased vote.
ghost use Rattle.std.specs.Prelude.{◌≡◌, ℕ, List, IsTrue};
ghost use Rattle.qn_base.specs.declared.ids.View.{View};
ghost use Rattle.qn_base.specs.Members.{is_member};
ghost use Rattle.qn_model.specs.declared.configuration.Settings.{Settings};
ghost use Rattle.qn_model.specs.declared.times.Timing.{Timing};
ghost use Rattle.qn_model.specs.Laws.{AreDisjoint};
ghost use Rattle.qn_model.specs.Steps.{holders};
ghost use Rattle.qn_model.specs.Timing.{is_safe};
ghost use Rattle.qn_safety.specs.Timed.{IsTimedRun};
ghost use Rattle.qn_safety.specs.declared.arbiter_event.ArbiterEvent.{ArbiterEvent};
ghost use Rattle.qn_safety.specs.declared.lease.Lease.{Lease};
ghost use Rattle.qn_safety.specs.ArbiterSteps.{AllAllowedBeside, run_beside};
ghost use Rattle.qn_safety.specs.ArbiterLaws.{IsQuorateIn, LeasesVote};
ghost use Rattle.qn_safety.specs.ArbiterNumbers.{OneMayLease};
ghost use Rattle.qn_safety.specs.ArbiterPremises.{HoldsByVote, VoteGoesOver};

use crate::laws::law_clocks;
use crate::log_laws::{law_boots, law_log_moves};
use qn_model::{law_disjoint_votes, law_present_view};

/// In the world beside an arbiter after any events, each well formed and allowed in its turn, no two running
/// nodes with disjoint present views are both quorate at their present ticks: for all valid settings with a
/// device and without last_man_standing, with expected votes of at least those of all nodes and of the device,
/// and every safe lease. It holds for every timing. The events stand newest first.
pub fn law_one_lease()
    ensures { (s : Settings) (t : Timing) (times : Lease) (events : List ArbiterEvent) (i j : ℕ)
        (left right : View)
        → LeasesVote s times
        → AllAllowedBeside s t times events
        → ¬ (i ≡ j)
        → AreDisjoint left right
        → IsQuorateIn s i left (run_beside s t times events)
        → ¬ IsQuorateIn s j right (run_beside s t times events) }
{
    law_lease_any_numbers();
}

/// After events that the rules beside an arbiter allow, whatever their numbers, no two running nodes with disjoint present
/// views are both quorate: `law_one_lease` is this law of well formed events.
pub fn law_lease_any_numbers()
    ensures { (s : Settings) (t : Timing) (times : Lease) → LeasesVote s times → OneMayLease s t times }
{
    law_clocks();
    law_boots();
    law_log_moves();
    law_disjoint_votes();
    law_present_view();
}

/// The premises are met: there are valid settings, safe timing, a safe lease and events, each allowed in its
/// turn, in which the vote goes from one half to the other: first a node is quorate by it, and later another
/// one, while the first still runs with its view.
pub fn law_leased_vote_goes_over()
    ensures { VoteGoesOver }
{}

/// And so is there a schedule in which a node holds the resource by the vote: its view alone has fewer votes than
/// it needs.
pub fn law_node_holds_by_leased_vote()
    ensures { HoldsByVote }
{}

/// Beside an arbiter too at most one node holds the resource after any events, each well formed and allowed in its turn: for
/// all settings, every safe timing and every lease, safe or not. The events stand newest first.
pub fn law_one_holder_beside()
    ensures { (s : Settings) (t : Timing) (times : Lease) (events : List ArbiterEvent) (i j : ℕ)
        → IsTrue (is_safe t)
        → AllAllowedBeside s t times events
        → IsTrue (is_member (holders s (run_beside s t times events).world) i)
        → IsTrue (is_member (holders s (run_beside s t times events).world) j)
        → i ≡ j }
{}

/// The moments of every run of the world beside an arbiter are a timed run, as those of a run without one are: what is proved
/// of each timed run holds there too.
pub fn law_runs_beside_are_timed()
    ensures { (s : Settings) (t : Timing) (times : Lease) (events : List ArbiterEvent)
        → AllAllowedBeside s t times events
        → IsTimedRun s t (run_beside s t times events).world.moments }
{}
