//! What holds of the log of one node from one moment to a later one.
ghost use Rattle.std.specs.Prelude.{◌≡◌, ◌≤◌, ℕ, Bool, List, ◌∷◌, IsTrue};
ghost use Rattle.qn_model.specs.declared.configuration.Settings.{Settings};
ghost use Rattle.qn_model.specs.declared.entries.What.TheVariants as what;
ghost use Rattle.qn_model.specs.declared.events.Event.{Event};
ghost use Rattle.qn_model.specs.declared.times.Timing.{Timing};
ghost use Rattle.qn_model.specs.Fitting.{fits};
ghost use Rattle.qn_model.specs.Log.{incarnation, timing};
ghost use Rattle.qn_model.specs.Moments.{Before, Moment, node, time};
ghost use Rattle.qn_model.specs.Phases.{is_booting, phase};
ghost use Rattle.qn_model.specs.Steps.{AllAllowed, run};
ghost use Rattle.qn_safety.specs.Clocks.{RunsOn};
ghost use Rattle.qn_safety.specs.LogMoves.{LogMove};
ghost use Rattle.qn_safety.specs.NodeLogs.{LogsHold};
ghost use Rattle.qn_safety.specs.Timed.{IsTimedRun, IsUp};

/// Time, boots and logs from an old moment to a new one. Time and the count of boots never fall; in one boot
/// the log of a node that runs only grows, and once the node is up its incarnation stays.
pub fn law_boots()
    ensures time { (old new : List Moment) → Before old new → time old ≤ time new }
    ensures count { (s : Settings) (rank : ℕ) (old new : List Moment)
        → Before old new
        → (node s rank old).boots ≤ (node s rank new).boots }
    ensures log { (s : Settings) (t : Timing) (rank : ℕ) (old new moments : List Moment)
        → IsTimedRun s t moments
        → RunsOn s rank old new moments
        → Before (node s rank old).log (node s rank new).log }
    ensures incarnation { (s : Settings) (t : Timing) (rank : ℕ) (old new moments : List Moment)
        → IsTimedRun s t moments
        → RunsOn s rank old new moments
        → IsUp s rank old
        → incarnation (node s rank new).log ≡ incarnation (node s rank old).log }
{}

/// What an event that is allowed is to the moments and to the log of each node: no moment goes, and a log stays, has
/// one line more, or begins with a boot. A view, and an answer of the device, come of no event but the one that
/// hands it: no node sends one.
pub fn law_log_moves()
    ensures moments { (s : Settings) (t : Timing) (earlier events : List Event)
        → Before earlier events
        → Before (run s t earlier).moments (run s t events).moments }
    ensures log { (s : Settings) (t : Timing) (event : Event) (earlier : List Event) (rank : ℕ)
        → AllAllowed s t (event ∷ earlier)
        → LogMove s rank event (run s t earlier).moments (run s t (event ∷ earlier)).moments }
{}

/// What holds of the log of a node in every timed run: once the node is up it works with the times of the run, and the answer to
/// the clearing of its mailbox, which ends a boot, fits it only while it boots.
pub fn law_up_nodes()
    ensures times { (s : Settings) (t : Timing) (rank : ℕ) (moments now : List Moment)
        → IsTimedRun s t moments
        → Before now moments
        → IsUp s rank now
        → timing (node s rank now).log ≡ t }
    ensures cleared { (s : Settings) (t : Timing) (rank : ℕ) (moments now : List Moment) (ok : Bool)
        → IsTimedRun s t moments
        → Before now moments
        → IsTrue (fits s rank (node s rank now).log (what.Cleared ok))
        → IsTrue (is_booting (phase s (node s rank now).log)) }
{}

/// What holds of the log of each configured node in the world after any events that the rules allow, whatever their numbers:
/// the operation of the disk is the last output; an entry after which the node is gone gave one output, which ends the run, and
/// then no operation is out and nothing is held; an operation stays out until its answer, names what is configured, and its
/// number fits a slot.
pub fn law_node_logs()
    ensures { (s : Settings) (t : Timing) → LogsHold s t }
{}
