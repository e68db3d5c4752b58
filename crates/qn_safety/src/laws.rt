//! The safety theorem and the laws beside it.
ghost use Rattle.std.specs.Prelude.{◌≡◌, ◌≤◌, ◌+◌, ◌*◌, ℕ, List, IsTrue, IsFalse, Some};
ghost use Rattle.qn_base.specs.Members.{is_member};
ghost use Rattle.qn_model.specs.declared.configuration.Settings.{Settings};
ghost use Rattle.qn_model.specs.declared.events.Event.{Event};
ghost use Rattle.qn_model.specs.declared.times.Timing.{Timing};
ghost use Rattle.qn_model.specs.Log.{incarnation};
ghost use Rattle.qn_model.specs.NodeVotes.{quorate_with_tie};
ghost use Rattle.qn_model.specs.Phases.{is_leaving, phase};
ghost use Rattle.qn_model.specs.Timing.{is_safe};
ghost use Rattle.qn_model.specs.Moments.{Before, Moment, is_holder, time};
ghost use Rattle.qn_model.specs.World.{node_at};
ghost use Rattle.qn_model.specs.Steps.{AllAllowed, holders, run};
ghost use Rattle.qn_safety.specs.AnyNumbers.{AllMay, OneMayHold};
ghost use Rattle.qn_safety.specs.Clocks.{RunsOn, clock};
ghost use Rattle.qn_safety.specs.Closing.{asked_close, has_landed_close};
ghost use Rattle.qn_safety.specs.Premises.{OneAfterAnother};
ghost use Rattle.qn_safety.specs.Releases.{AllInView};
ghost use Rattle.qn_safety.specs.Timed.{IsSameBoot, IsTimedRun, IsUp, NumbersRise};

/// In the world after any events, each well formed and allowed in its turn, at most one node holds the
/// resource, and at most one is reported as a holder: for all settings and all safe timing. The events
/// stand newest first.
pub fn law_no_two_holders()
    ensures nodes { (s : Settings) (t : Timing) (events : List Event) (i j : ℕ)
        → IsTrue (is_safe t)
        → AllAllowed s t events
        → IsTrue (is_holder s (run s t events).moments i)
        → IsTrue (is_holder s (run s t events).moments j)
        → i ≡ j }
    ensures reported { (s : Settings) (t : Timing) (events : List Event) (i j : ℕ)
        → IsTrue (is_safe t)
        → AllAllowed s t events
        → IsTrue (is_member (holders s (run s t events)) i)
        → IsTrue (is_member (holders s (run s t events)) j)
        → i ≡ j }
{}

/// In every timed run with safe timing at most one node holds the resource at each moment.
pub fn law_timed_runs()
    ensures { (s : Settings) (t : Timing) (moments now : List Moment) (i j : ℕ)
        → IsTrue (is_safe t)
        → IsTimedRun s t moments
        → Before now moments
        → IsTrue (is_holder s now i)
        → IsTrue (is_holder s now j)
        → i ≡ j }
{}

/// The moments of every run of the world are a timed run: the image of the world gives the four facts.
pub fn law_runs_are_timed()
    ensures { (s : Settings) (t : Timing) (events : List Event)
        → AllAllowed s t events
        → IsTimedRun s t (run s t events).moments }
{}

/// The incarnations of one node in the world after any allowed events. Their numbers rise strictly. While
/// one is up, its number stands in its slot; the slot is dirty until its close landed; where the close
/// landed, the node is leaving. From the asking for its close on it never holds the resource.
pub fn law_incarnations()
    ensures rise { (s : Settings) (t : Timing) (events : List Event)
        → AllAllowed s t events
        → NumbersRise s (run s t events).moments }
    ensures number { (s : Settings) (t : Timing) (events : List Event) (rank : ℕ)
        → AllAllowed s t events
        → IsUp s rank (run s t events).moments
        → incarnation (node_at s rank (run s t events)).log
        ≡ Some ((run s t events).slots rank).incarnation }
    ensures dirty { (s : Settings) (t : Timing) (events : List Event) (rank : ℕ)
        → AllAllowed s t events
        → IsUp s rank (run s t events).moments
        → IsFalse (has_landed_close s rank (run s t events))
        → IsFalse ((run s t events).slots rank).clean }
    ensures leaves { (s : Settings) (t : Timing) (events : List Event) (rank : ℕ)
        → AllAllowed s t events
        → IsTrue (has_landed_close s rank (run s t events))
        → IsTrue (is_leaving (phase s (node_at s rank (run s t events)).log)) }
    ensures closed { (s : Settings) (t : Timing) (events earlier : List Event) (rank : ℕ)
        → AllAllowed s t events
        → Before earlier events
        → IsTrue (asked_close (node_at s rank (run s t earlier)).log)
        → IsSameBoot s rank (run s t earlier).moments (run s t events).moments
        → IsFalse (is_holder s (run s t events).moments rank) }
{}

/// The clock of a node that runs, against true time, in every timed run: between two moments of one boot it
/// advances by at least 99 and at most 101 hundredths of a millisecond for each millisecond that passes.
pub fn law_clocks()
    ensures slow { (s : Settings) (t : Timing) (moments old new : List Moment) (rank : ℕ)
        → IsTimedRun s t moments
        → RunsOn s rank old new moments
        → 99 * time new + clock s rank old ≤ clock s rank new + 99 * time old }
    ensures fast { (s : Settings) (t : Timing) (moments old new : List Moment) (rank : ℕ)
        → IsTimedRun s t moments
        → RunsOn s rank old new moments
        → clock s rank new + 101 * time old ≤ 101 * time new + clock s rank old }
{}

/// With wait_for_all on, a node is quorate at a tick, by the votes or by the tie breaker, only where one of
/// the events handed a node a view of all configured nodes, which fitted that node.
pub fn law_wait_for_all()
    ensures { (s : Settings) (t : Timing) (events : List Event) (rank tick : ℕ)
        → IsTrue s.wait_for_all
        → AllAllowed s t events
        → IsTrue (quorate_with_tie s (node_at s rank (run s t events)).log tick)
        → AllInView s t events }
{}

/// The premises are met: there are valid settings, safe timing and events, each allowed in its turn, in which
/// two nodes hold the resource, one after the other.
pub fn law_premises_are_met()
    ensures { OneAfterAnother }
{}

/// In the world after any events that the rules allow, whatever their numbers, at most one node holds the resource, for all
/// settings and all safe timing: `law_no_two_holders` is this law of well formed events.
pub fn law_any_numbers()
    ensures { (s : Settings) (t : Timing) → IsTrue (is_safe t) → OneMayHold s t }
{}

/// The moments of every run of events that the rules allow, whatever their numbers, are a timed run: `law_runs_are_timed` is this
/// law of well formed events.
pub fn law_any_runs_are_timed()
    ensures { (s : Settings) (t : Timing) (events : List Event)
        → AllMay s t events
        → IsTimedRun s t (run s t events).moments }
{}
