//! The fence lemma and the Tell lemma.
ghost use Rattle.std.specs.Prelude.{◌≡◌, ℕ, List, IsTrue};
ghost use Rattle.qn_model.specs.declared.configuration.Settings.{Settings};
ghost use Rattle.qn_model.specs.declared.entries.What.TheVariants as what;
ghost use Rattle.qn_model.specs.declared.packets.Tell.{Tell};
ghost use Rattle.qn_model.specs.declared.times.Timing.{Timing};
ghost use Rattle.qn_model.specs.Licences.{writes_reset};
ghost use Rattle.qn_model.specs.Log.{Line};
ghost use Rattle.qn_model.specs.Moments.{Before, Moment};
ghost use Rattle.qn_model.specs.NodeVotes.{answers};
ghost use Rattle.qn_model.specs.Timing.{is_safe};
ghost use Rattle.qn_safety.specs.Lemmas.{HasEnded, HasWaited, TellSays};
ghost use Rattle.qn_safety.specs.Timed.{IsAdded, IsBetween, IsTimedRun};

/// The fence lemma. Where a node's reset of another one was written, there is a moment of that write such
/// that the incarnation of the other node that was up at it, if one was, is not running any more once
/// msgwait has passed for the node since the answer.
pub fn law_fence()
    ensures { (s : Settings) (t : Timing) (moments : List Moment) (rank other : ℕ) (line : Line)
        (past : List Line) (before : List Moment)
        → IsTrue (is_safe t)
        → IsTimedRun s t moments
        → IsAdded s rank line past before moments
        → IsTrue (writes_reset other line.what)
        → (between : List Moment) × IsBetween s rank line before between
        × ((now : List Moment) → Before now moments → HasWaited s t rank line before now
        → HasEnded s other between now) }
{}

/// The Tell lemma. A Tell that answers its reader was sent after the reader's last View, by a node whose
/// present view then was that of the Tell. Where it says not holding, what its sender holds later it started
/// after the Tell.
pub fn law_tells()
    ensures { (s : Settings) (t : Timing) (moments : List Moment) (reader : ℕ) (line : Line)
        (past : List Line) (before : List Moment) (tell : Tell)
        → IsTimedRun s t moments
        → IsAdded s reader line past before moments
        → line.what ≡ what.Tell tell
        → IsTrue (answers past tell)
        → TellSays s reader tell before moments }
{}
