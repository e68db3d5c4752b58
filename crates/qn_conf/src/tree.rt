//! The tree of a settings text: its sections and pairs in text order.
ghost use Rattle.std.specs.Prelude.{◌≡◌, ℕ, List};

use std::marker::Model;

/// The name of a section or a key, or a value: bytes of the text, without blanks at the ends.
#[derive(Drop)]
pub struct Word<'text> {
    bytes: &'text [u8],
}

impl<'text> Model for Word<'text> {
    ghost Value = { List ℕ };

    ghost view = { λ w. w.bytes.now };
}

impl<'text> Word<'text> {
    pub(crate) fn new(bytes: &'text [u8]) -> Self
        ensures { result ≡ bytes.now }
    {
        Word { bytes }
    }

    /// An equal word, of the same text.
    pub fn copy(&self) -> Self
        ensures { result ≡ self.now }
    {
        Word { bytes: self.bytes }
    }

    /// The bytes of the word.
    pub fn bytes(&self) -> &'text [u8]
        ensures { result.now ≡ self.now }
    {
        self.bytes
    }
}

/// What one line of a settings text says (corosync.conf(5)).
#[derive(Drop)]
pub enum Item<'text> {
    /// The section of this name begins.
    Enter(Word<'text>),
    /// The innermost section ends.
    Exit,
    /// A key and its value, which may be empty.
    Pair(Word<'text>, Word<'text>),
}

/// The items of a settings text, in text order.
#[derive(Drop)]
pub struct Tree<'text> {
    items: Vec<Item<'text>>,
}

impl<'text> Model for Tree<'text> {
    ghost use Rattle.std.specs.Prelude.{List};
    ghost use Rattle.qn_conf.specs.declared.tree.Item.{Item};

    ghost Value = { List Item };

    ghost view = { λ t. t.items.items };
}

impl<'text> Tree<'text> {
    pub(crate) fn new(items: Vec<Item<'text>>) -> Self
        ensures { result ≡ items.entry.items }
    {
        Tree { items }
    }

    /// The items, in text order.
    pub fn items(&self) -> &[Item<'text>]
        ensures { result.now ≡ self.now }
    {
        self.items.as_slice()
    }
}
