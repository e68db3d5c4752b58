//! The trait of a world that takes the lines of a schedule.
use arrayvec::ArrayVec;
use qn_base::MOST_LINE_BYTES;
use qn_sched::ReplayEnd;

/// A world that takes the lines of a schedule after its head, one after the other.
///
/// `play` is what a line comes to after the earlier ones, of which the newest stands first, in a run that a world
/// began: its trace text, or how the run ends there. `wants` is whether a good line adds something that takes
/// memory. `stands` says that the second world is what the first has become after these lines. The bounds of
/// every input, and its end, are those of `play` in `run` and not the world's.
pub trait Plays {
    ghost use Rattle.std.specs.Prelude.{◌≡◌, ℕ, ◌<◌, List, ◌∷◌, Bool, Result, length, OnOk, OnErr, IfErr};
    ghost use Rattle.qn_base.specs.declared.limits.TheConstants.{MOST_EVENTS};
    ghost use Rattle.qn_playback.specs.Judging.{RefusesAt};
    ghost use Rattle.qn_sched.specs.declared.replay_end.ReplayEnd.{ReplayEnd};

    ghost play: { Self → List (List ℕ) → List ℕ → Result (List ℕ) ReplayEnd };

    ghost wants: { Self → List (List ℕ) → List ℕ → Bool };

    ghost stands: { Self → Self → List (List ℕ) → Type 0 };

    /// Takes a whole line, without its end, and puts its trace text, with its end, in place of `text`.
    /// Otherwise nothing happens, and the run ends; what `text` is then is free.
    fn take(
        &mut self,
        line: &[u8],
        text: &mut ArrayVec<u8, MOST_LINE_BYTES>,
    ) -> Result<(), ReplayEnd>
        requires { (start : Self)
            × ((earlier : List (List ℕ)) × stands start self.old earlier
            × (length earlier < MOST_EVENTS)) }
        ensures text { OnOk result
            ((start : Self) (earlier : List (List ℕ)) → stands start self.old earlier
            → play start earlier line.now ≡ Ok text.new.items) }
        ensures stands { OnOk result
            ((start : Self) (earlier : List (List ℕ)) → stands start self.old earlier
            → stands start self.new (line.now ∷ earlier)) }
        ensures end { IfErr result
            (λ end. (start : Self) (earlier : List (List ℕ)) → stands start self.old earlier
            → RefusesAt (play start) (wants start) earlier line.now end) }
        ensures kept { OnErr result
            ((start : Self) (earlier : List (List ℕ)) → stands start self.old earlier
            → stands start self.new earlier) };
}
