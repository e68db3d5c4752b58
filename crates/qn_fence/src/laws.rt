//! What leaves a fencer as it is, and whom its operations are about.
ghost use Rattle.std.specs.Prelude.{◌≡◌, ◌≤◌, ◌∷◌, [], ℕ, None, List, false};
ghost use Rattle.qn_model.specs.declared.configuration.Settings.{Settings};
ghost use Rattle.qn_model.specs.declared.entries.Entry.{Entry};
ghost use Rattle.qn_model.specs.declared.entries.What.{What};
ghost use Rattle.qn_model.specs.Log.{Line, disk_of, now};
ghost use Rattle.qn_model.specs.NodeOutputs.{log_of, with_read};
ghost use Rattle.qn_model.specs.Wanted.{fencing_op};
ghost use Rattle.qn_fence.specs.declared.fencing.Fence.{Fence};
ghost use Rattle.qn_fence.specs.Fence.{FenceFor, IsAskedInside, IsOutside, bears_on_fencing};

/// A line that does not bear on the fencing leaves what a fencer stands for.
pub fn law_other_lines()
    ensures { (fence : Fence) (s : Settings) (log : List Line) (line : Line)
        → FenceFor fence s log
        → bears_on_fencing line.what ≡ false
        → now log ≤ line.tick
        → disk_of line.outs ≡ None
        → FenceFor fence s (line ∷ log) }
{}

/// The operations of the fencing are about no member of the node's view.
pub fn law_outside()
    ensures { (s : Settings) (log : List Line) → IsOutside log (fencing_op s log) }
{}

/// Nothing in the log of a history was asked for after the log's end.
pub fn law_asked_inside()
    ensures none { IsAskedInside [] }
    ensures more { (s : Settings) (me : ℕ) (log : List Line) (tick : ℕ) (entry : What)
        → IsAskedInside log
        → IsAskedInside (with_read s me log tick entry) }
    ensures all { (s : Settings) (me : ℕ) (history : List Entry)
        → IsAskedInside (log_of s me history) }
{}
