//! The safety theorem over three images.
ghost use Rattle.std.specs.Prelude.{◌≡◌, ℕ, List, IsTrue};
ghost use Rattle.qn_base.specs.Members.{is_member};
ghost use Rattle.qn_model.specs.declared.configuration.Settings.{Settings};
ghost use Rattle.qn_model.specs.declared.times.Timing.{Timing};
ghost use Rattle.qn_model.specs.Moments.{is_holder};
ghost use Rattle.qn_model.specs.Steps.{holders};
ghost use Rattle.qn_model.specs.Timing.{is_safe};
ghost use Rattle.qn_safety.specs.declared.triple_event.TripleEvent.{TripleEvent};
ghost use Rattle.qn_safety.specs.Timed.{IsTimedRun};
ghost use Rattle.qn_safety.specs.TripleNumbers.{OneMayHoldTriple, TripleNodesHold};
ghost use Rattle.qn_safety.specs.TriplePremises.{OneAfterAnotherOnTwo};
ghost use Rattle.qn_safety.specs.TripleSteps.{AllAllowedTriple, run_triple};
ghost use Rattle.qn_safety.specs.TripleWorld.{nodes_of};

/// In the world of three images after any events, each well formed and allowed in its turn, at most one node holds
/// the resource, and at most one is reported as a holder: for all settings and all safe timing, though any one
/// image may fail, lag behind or come back. The events stand newest first.
pub fn law_triple_no_two_holders()
    ensures nodes { (s : Settings) (t : Timing) (events : List TripleEvent) (i j : ℕ)
        → IsTrue (is_safe t)
        → AllAllowedTriple s t events
        → IsTrue (is_holder s (run_triple s t events).moments i)
        → IsTrue (is_holder s (run_triple s t events).moments j)
        → i ≡ j }
    ensures reported { (s : Settings) (t : Timing) (events : List TripleEvent) (i j : ℕ)
        → IsTrue (is_safe t)
        → AllAllowedTriple s t events
        → IsTrue (is_member (holders s (nodes_of (run_triple s t events))) i)
        → IsTrue (is_member (holders s (nodes_of (run_triple s t events))) j)
        → i ≡ j }
{}

/// The moments of every run of the world of three images are a timed run: the three images together give the four
/// facts.
pub fn law_triple_runs_are_timed()
    ensures { (s : Settings) (t : Timing) (events : List TripleEvent)
        → AllAllowedTriple s t events
        → IsTimedRun s t (run_triple s t events).moments }
{}

/// The premises are met: there are valid settings, safe timing and events, each allowed in its turn, in which one of
/// the three images is lost all the time, and two nodes hold the resource, one after the other.
pub fn law_triple_premises_are_met()
    ensures { OneAfterAnotherOnTwo }
{}

/// In the world of three images after any events that the rules allow, whatever their numbers, at most one node holds the
/// resource, for all settings and all safe timing: `law_triple_no_two_holders` is this law of well formed events.
pub fn law_triple_any_numbers()
    ensures { (s : Settings) (t : Timing) → IsTrue (is_safe t) → OneMayHoldTriple s t }
{}

/// What holds of each configured node in the world of three images after any events that the rules allow, whatever their
/// numbers: its log is one as `law_node_logs` says, two of its images at least are good while it runs, and all three where it
/// checks its mailbox for a clean start.
pub fn law_triple_nodes()
    ensures { (s : Settings) (t : Timing) → TripleNodesHold s t }
{}
