//! What a reader of a journal rests on.
ghost use Rattle.std.specs.Prelude.{◌≡◌, ◌<◌, ℕ, List, All, Some};
ghost use Rattle.qn_event.specs.declared.event_name.EventName.{EventName};
ghost use Rattle.qn_event.specs.EventNames.{event_named, event_word};
ghost use Rattle.qn_event.specs.ValuesRead.{value_in, value_text};

/// The text of a value is read as that value, whatever its bytes are.
pub fn law_value_read_back()
    ensures { (value : List ℕ) → All (λ byte. byte < 256) value
        → value_in (value_text value) ≡ Some value }
{}

/// The word of an event is read as that event.
pub fn law_event_names_read_back()
    ensures { (name : EventName) → event_named (event_word name) ≡ Some name }
{}
