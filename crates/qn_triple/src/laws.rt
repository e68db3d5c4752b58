//! The law that a line of a schedule of three images says a well formed event.
ghost use Rattle.std.specs.Prelude.{◌≡◌, ℕ, List, Ok, IsTrue};
ghost use Rattle.qn_model.specs.declared.configuration.Settings.{Settings};
ghost use Rattle.qn_model.specs.Settings.{IsValid, ids};
ghost use Rattle.qn_safety.specs.declared.triple_event.TripleEvent.{TripleEvent};
ghost use Rattle.qn_safety.specs.TripleRules.{is_well_formed_triple};
ghost use Rattle.qn_triple.specs.TripleReading.{triple_event_of};

use qn_sched::law_event_lines;

/// The event that a line says, of valid settings, is well formed: its numbers are in range, and its ranks and members are
/// configured.
pub fn law_triple_lines()
    ensures { (s : Settings) (line : List ℕ) (event : TripleEvent)
        → IsValid s
        → triple_event_of (ids s.nodes) line ≡ Ok event
        → IsTrue (is_well_formed_triple s event) }
{
    law_event_lines();
}
