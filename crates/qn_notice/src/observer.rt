//! Tells the events of a run, call by call.
ghost use Rattle.std.specs.Prelude.{◌≡◌, [], ◌∷◌};
ghost use Rattle.qn_notice.specs.Observing.{takes};

use crate::answers::answered;
use crate::kinds::Event;
use crate::turns::{EventList, events};
use arrayvec::ArrayVec;
use qn_live::{Asked, Given, NodeRun, Standing};

/// What is told of a run, so far as it has come. It keeps where the node stood after its last entry.
#[derive(Clone, Copy)]
pub struct Observer {
    /// None before the first entry.
    before: Option<Standing>,
}

impl Observer {
    ghost use Rattle.std.specs.Prelude.{◌≡◌, ℕ, List, [], true, false, option_to_list};
    ghost use Rattle.qn_model.specs.declared.configuration.Settings.{Settings};
    ghost use Rattle.qn_model.specs.Log.{Line};
    ghost use Rattle.qn_model.specs.NodeOutputs.{with_entry};
    ghost use Rattle.qn_live.specs.Machine.{Stands, TookIn, last_entry};
    ghost use Rattle.qn_live.specs.Standings.{standing};
    ghost use Rattle.qn_notice.specs.Answers.{answered};
    ghost use Rattle.qn_notice.specs.Journal.{told};
    ghost use Rattle.qn_notice.specs.Observing.{IsUpTo, takes};

    /// An observer of a run that takes its first entry next.
    pub fn new() -> Observer
        ensures { (s : Settings) (me : ℕ) → IsUpTo result s me [] }
    {
        Observer { before: None }
    }

    /// The events of a call that the run made and whose answer it has taken: of a look at the clock the events of the entry
    /// that was taken in then, else the event of the answer.
    pub fn made(&mut self, asked: Asked, given: Given, run: &NodeRun) -> EventList
        ensures told { (log : List Line)
            → takes asked given run.now ≡ true
            → IsUpTo self.old run.now.settings run.now.me.0 log
            → TookIn run.now log given.tick
            → result.items ≡ told run.now.settings run.now.me.0 log (last_entry run.now) }
        ensures goes_on { (log : List Line)
            → takes asked given run.now ≡ true
            → TookIn run.now log given.tick
            → IsUpTo self.new run.now.settings run.now.me.0
            (with_entry run.now.settings run.now.me.0 log (last_entry run.now)) }
        ensures answered { takes asked given run.now ≡ false
            → result.items ≡ option_to_list (answered asked given) }
        ensures stays { takes asked given run.now ≡ false → self.new ≡ self.old }
    {
        if takes(asked, given, run) {
            return self.took(run);
        }
        match answered(asked, given) {
            Some(event) => only(event),
            None => ArrayVec::new(),
        }
    }

    /// The events of the entry that the run took in.
    fn took(&mut self, run: &NodeRun) -> EventList
        ensures told { (log : List Line) (tick : ℕ)
            → IsUpTo self.old run.now.settings run.now.me.0 log
            → TookIn run.now log tick
            → result.items ≡ told run.now.settings run.now.me.0 log (last_entry run.now) }
        ensures goes_on { (log : List Line) (tick : ℕ)
            → TookIn run.now log tick
            → IsUpTo self.new run.now.settings run.now.me.0
            (with_entry run.now.settings run.now.me.0 log (last_entry run.now)) }
    {
        let before = self.stood(run);
        let after = run.standing();
        self.before = Some(after);
        events(&before, &after, run.entry(), run.outs())
    }

    /// Where the node stood before the entry that was taken in.
    fn stood(&self, run: &NodeRun) -> Standing
        ensures { (log later : List Line)
            → IsUpTo self.now run.now.settings run.now.me.0 log
            → Stands run.now later
            → result ≡ standing run.now.settings run.now.me.0 log }
    {
        match self.before {
            Some(before) => before,
            None if (run.rank().0 as usize) < run.settings().nodes.len() => {
                Standing::first(run.settings(), run.rank())
            }
            None => run.standing(),
        }
    }
}

/// Whether the run took an entry in at this call: a look at the clock that did not go back.
fn takes(asked: Asked, given: Given, run: &NodeRun) -> bool
    ensures { result ≡ takes asked given run.now }
{
    matches!(asked, Asked::Now) && given.tick == run.tick()
}

fn only(event: Event) -> EventList
    ensures { result.items ≡ event ∷ [] }
{
    let mut all = ArrayVec::new();
    all.push(event);
    all
}
