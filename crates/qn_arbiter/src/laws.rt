//! The law that a line beside an arbiter says an event exactly where it is its spelling.
ghost use Rattle.std.specs.Prelude.{◌≡◌, ◌↔◌, ℕ, List, Ok, Some, IsTrue};
ghost use Rattle.qn_safety.specs.declared.arbiter_event.ArbiterEvent.{ArbiterEvent};
ghost use Rattle.qn_safety.specs.ArbiterRules.{is_well_formed_beside};
ghost use Rattle.qn_model.specs.declared.configuration.Settings.{Settings};
ghost use Rattle.qn_model.specs.Settings.{IsValid, ids};
ghost use Rattle.qn_arbiter.specs.EventReading.{arbiter_event_of};
ghost use Rattle.qn_arbiter.specs.EventLines.{arbiter_line};

use qn_sched::law_event_lines;

/// A line says an event of valid settings exactly where the event is well formed and the line is its
/// spelling.
pub fn law_arbiter_lines()
    ensures { (s : Settings) (line : List ℕ) (event : ArbiterEvent)
        → IsValid s
        → (arbiter_event_of (ids s.nodes) line ≡ Ok event)
        ↔ (IsTrue (is_well_formed_beside s event)
        × (arbiter_line (ids s.nodes) event ≡ Some line)) }
{
    law_event_lines();
}
