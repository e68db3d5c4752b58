//! What leaves a watcher as it is.
ghost use Rattle.std.specs.Prelude.{◌≡◌, ◌∷◌, None, List, false};
ghost use Rattle.qn_model.specs.Log.{Line, disk_of, times_of};
ghost use Rattle.qn_model.specs.Wanted.{asks_mail};
ghost use Rattle.qn_watch.specs.declared.mailbox.Watch.{Watch};
ghost use Rattle.qn_watch.specs.Watch.{WatchFor};

/// A line that gives no header and asks for no read of the own mailbox leaves what a watcher stands for.
pub fn law_other_lines()
    ensures { (watch : Watch) (log : List Line) (line : Line)
        → WatchFor watch log
        → times_of line.what ≡ None
        → asks_mail (disk_of line.outs) ≡ false
        → WatchFor watch (line ∷ log) }
{}
