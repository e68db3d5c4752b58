//! The laws of a group over every run of its steps.
ghost use Rattle.std.specs.Prelude.{◌≡◌, ◌≢◌, ◌<◌, ◌≤◌, ◌++◌, ◌∷◌, ℕ, List, [], false, true};
ghost use Rattle.qn_group.specs.declared.phase.Verb.{Verb};
ghost use Rattle.qn_group.specs.declared.group.Event.{Event};
ghost use Rattle.qn_group.specs.declared.group.Given.{Given};
ghost use Rattle.qn_group.specs.declared.group.Group.{Group};
ghost use Rattle.qn_group.specs.Acts.{begins, ends, is_start, is_started_by, is_stopped, is_verb, runs_at, says_down};
ghost use Rattle.qn_group.specs.Steps.{Run, Step, event_at, given_at, holds, stage_at};
ghost use Rattle.qn_group.specs.Phases.{Down};
ghost use Rattle.qn_group.specs.declared.phase.Verb.TheVariants.{Monitor, Start};

/// A run of no step, and one of a step more.
pub fn law_runs()
    ensures none { (group : Group) → Run group [] [] group }
    ensures more { (old mid new : Group) (events : List Event) (all : List Given) (happened : Event) (given : Given)
        → Run old events all mid
        → Step mid happened given new
        → Run old (events ++ happened ∷ []) (all ++ given ∷ []) new }
{}

/// Nothing is started where the node does not hold: from an ok to a stop on, that step included,
/// and from a first state in which it does not hold on, nothing is started until the node starts
/// the group.
pub fn law_nothing_unheld()
    ensures after_stop { (old new : Group) (events : List Event) (all : List Given)
        → Run old events all new → (i j : ℕ) → i ≤ j
        → is_stopped (given_at all i) ≡ true
        → ((k : ℕ) → i < k → k ≤ j → is_started_by (event_at events k) ≡ false)
        → is_start (given_at all j).act ≡ false }
    ensures before_start { (old new : Group) (events : List Event) (all : List Given)
        → Run old events all new → holds old ≡ false → (j : ℕ)
        → ((k : ℕ) → k ≤ j → is_started_by (event_at events k) ≡ false)
        → is_start (given_at all j).act ≡ false }
{}

/// One action at a time: from the beginning of an action on a resource on, until its end comes,
/// nothing is begun on that resource and no stop is answered as done. So at an ok to a stop no
/// start is under way, and no stop and no monitor.
pub fn law_one_action()
    ensures later { (old new : Group) (events : List Event) (all : List Given)
        → Run old events all new → (at i j : ℕ) (done : Verb) → i < j
        → begins done at (given_at all i).act ≡ true
        → ((k : ℕ) → i < k → k ≤ j → ends done at (event_at events k) ≡ false)
        → (runs_at at (given_at all j).act ≡ false) × (is_stopped (given_at all j) ≡ false) }
    ensures at_once { (old new : Group) (events : List Event) (all : List Given)
        → Run old events all new → (at i : ℕ) (done : Verb)
        → begins done at (given_at all i).act ≡ true
        → is_stopped (given_at all i) ≡ false }
{}

/// A resource is down by a monitor's "not running" alone, never by the end of a stop. Where it is
/// not down, or from the beginning of an action on it on, no stop is answered as done and it is not
/// started until a monitor says so; and after a start or a stop that word counts only of a monitor
/// that was begun later: up to a step `n` no monitor is begun, and after it none says so.
pub fn law_down_by_word()
    ensures first { (old new : Group) (events : List Event) (all : List Given)
        → Run old events all new → (at j : ℕ) → stage_at old at ≢ Down
        → ((k : ℕ) → k ≤ j → says_down at (event_at events k) ≡ false)
        → (begins Start at (given_at all j).act ≡ false) × (is_stopped (given_at all j) ≡ false) }
    ensures begun { (old new : Group) (events : List Event) (all : List Given)
        → Run old events all new → (at i j : ℕ) → i < j
        → runs_at at (given_at all i).act ≡ true
        → ((k : ℕ) → i < k → k ≤ j → says_down at (event_at events k) ≡ false)
        → (begins Start at (given_at all j).act ≡ false) × (is_stopped (given_at all j) ≡ false) }
    ensures asked_since { (old new : Group) (events : List Event) (all : List Given)
        → Run old events all new → (at i n j : ℕ) (done : Verb) → i < n → n ≤ j
        → is_verb Monitor done ≡ false
        → begins done at (given_at all i).act ≡ true
        → ((k : ℕ) → i < k → k < n → begins Monitor at (given_at all k).act ≡ false)
        → ((k : ℕ) → n < k → k ≤ j → says_down at (event_at events k) ≡ false)
        → (begins Start at (given_at all j).act ≡ false) × (is_stopped (given_at all j) ≡ false) }
{}
