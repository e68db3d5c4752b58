//! The law that a line says an event exactly where it is its spelling.
ghost use Rattle.std.specs.Prelude.{◌≡◌, ◌↔◌, ℕ, List, Ok, IsTrue};
ghost use Rattle.qn_model.specs.declared.configuration.Settings.{Settings};
ghost use Rattle.qn_model.specs.declared.events.Event.{Event};
ghost use Rattle.qn_model.specs.Rules.{is_well_formed};
ghost use Rattle.qn_model.specs.Settings.{IsValid, ids};
ghost use Rattle.qn_sched.specs.EventLines.{event_line};
ghost use Rattle.qn_sched.specs.EventReading.{event_of};

/// A line says an event of valid settings exactly where the event is well formed and the line is its
/// spelling.
pub fn law_event_lines()
    ensures { (s : Settings) (line : List ℕ) (event : Event)
        → IsValid s
        → (event_of (ids s.nodes) line ≡ Ok event)
        ↔ (IsTrue (is_well_formed s event) × (line ≡ event_line (ids s.nodes) event)) }
{}
