//! The text of a status file.
ghost use Rattle.std.specs.Prelude.{◌≡◌, ◌<◌, IfNone, IfSome, length};
ghost use Rattle.qn_journal.specs.StatusTexts.{status_text};

use crate::json_text::JsonText;
use crate::writing::write_shown;
use qn_shown::Shown;
use std::marker::Model;

/// The text of a status file: one line.
#[derive(Drop)]
pub struct ShownText {
    json: JsonText,
}

impl Model for ShownText {
    ghost use Rattle.std.specs.Prelude.{List, ℕ};

    ghost Value = { List ℕ };

    ghost view = { λ t. t.json.text.bytes.items };
}

impl ShownText {
    ghost use Rattle.std.specs.Prelude.{◌≡◌, ◌<◌, IfNone, IfSome, IsSome, length};
    ghost use Rattle.qn_journal.specs.Rooms.{IsUsual};
    ghost use Rattle.qn_journal.specs.StatusTexts.{status_text};

    /// The text of what a node shows; None where it has no room. It has where the node is one of at most 32, whose names have at most 63 bytes, and no
    /// quote, backslash or control.
    pub fn of(shown: &Shown) -> Option<ShownText>
        ensures text { IfSome result (λ text. text ≡ status_text shown.now) }
        ensures room { IfNone result (14336 < length (status_text shown.now)) }
        ensures enough { IsUsual shown.now → IsSome result }
    {
        let mut json = JsonText::new();
        write_shown(&mut json, shown);
        json.end_line();
        if json.is_cut() {
            return None;
        }
        Some(ShownText { json })
    }

    /// The bytes of the text.
    pub fn as_slice(&self) -> &[u8]
        ensures { result.now ≡ self.now }
    {
        self.json.as_slice()
    }
}
