//! A path among the words of a command.
ghost use Rattle.std.specs.Prelude.{◌≡◌};

use std::marker::Model;

/// A path among the words.
#[derive(Drop)]
pub struct Path<'words> {
    text: &'words str,
}

impl<'words> Model for Path<'words> {
    ghost use Rattle.std.specs.Prelude.{ℕ, List};

    ghost Value = { List ℕ };

    ghost view = { λ p. p.text.now };
}

impl<'words> Path<'words> {
    pub fn new(text: &'words str) -> Self
        ensures { result ≡ text.now }
    {
        Path { text }
    }

    /// The path as it was written.
    pub fn as_str(&self) -> &'words str
        ensures { result.now ≡ self.now }
    {
        self.text
    }
}
