//! The keys that are read, in the order in which the tree has them.
ghost use Rattle.std.specs.Prelude.{◌≡◌, ◌+◌, ◌≤◌, ◌<◌, ◌-◌, ◌^◌, length, IfSome, IfNone};
ghost use Rattle.qn_settings.specs.Entries.{entry_of, open_after};

use crate::key::Key;
use crate::section::{OpenSections, Section};
use qn_conf::{Item, Tree, Word};
use std::marker::Model;

/// What a tree says of the keys that are read.
#[derive(Drop)]
pub(crate) enum Entry<'tree> {
    /// A node section begins.
    NodeBegins,
    /// A pair of a key that is read, with its value.
    Written(Key, Word<'tree>),
}

/// The entry of an item inside the open sections, which it begins or ends.
fn read_item<'tree>(sections: &mut OpenSections, item: &Item<'tree>) -> Option<Entry<'tree>>
    requires { length sections.old < 2 ^ 64 - 1 }
    ensures entry { result ≡ entry_of sections.old item.now }
    ensures after { sections.new ≡ open_after sections.old item.now }
{
    match item {
        Item::Enter(name) => match sections.enter(name.bytes()) {
            Section::Node => Some(Entry::NodeBegins),
            _ => None,
        },
        Item::Exit => {
            sections.exit();
            None
        }
        Item::Pair(name, value) => {
            let key = sections.innermost().key(name.bytes())?;
            Some(Entry::Written(key, value.copy()))
        }
    }
}

/// The entries of a tree that are left, in text order.
#[derive(Drop)]
pub(crate) struct Entries<'tree> {
    items: &'tree [Item<'tree>],
    sections: OpenSections,
}

impl<'tree> Model for Entries<'tree> {
    ghost use Rattle.std.specs.Prelude.{List, length, ◌+◌, ◌<◌, ◌^◌};
    ghost use Rattle.qn_settings.specs.declared.entries.Entry.{Entry};
    ghost use Rattle.qn_settings.specs.Entries.{entries_from};

    ghost Value = { List Entry };

    ghost view = { λ e. entries_from e.sections e.items.now };

    ghost invariant = { λ e. length e.sections + length e.items.now < 2 ^ 64 };
}

impl<'tree> Entries<'tree> {
    ghost use Rattle.std.specs.Prelude.{◌≡◌, ◌<◌, ◌^◌, [], ◌∷◌, length, if◌then◌else◌};
    ghost use Rattle.qn_settings.specs.Entries.{entries_of};
    ghost use Rattle.qn_settings.specs.Nodes.{own_entries, sections};

    /// The entries of the whole tree.
    #[tactic(auto, unfolding(crate::specs::Entries::entries_of))]
    pub(crate) fn of(tree: &'tree Tree<'tree>) -> Self
        ensures entries { result ≡ entries_of tree.now }
        ensures bounded { length (sections result) < 2 ^ 64 }
    {
        Entries {
            items: tree.items(),
            sections: OpenSections::new(),
        }
    }

    /// An equal iterator.
    pub(crate) fn copy(&self) -> Self
        ensures { result ≡ self.now }
    {
        Entries {
            items: self.items,
            sections: self.sections.copy(),
        }
    }

    /// Goes past the beginning of the next node section, or to the end where there is none.
    pub(crate) fn skip_to_node(&mut self) -> bool
        ensures { sections self.old
            ≡ (if result then own_entries self.new ∷ sections self.new else []) }
    {
        while let Some(entry) = self.next() {
            if let Entry::NodeBegins = entry {
                return true;
            }
        }
        false
    }
}

impl<'tree> Iterator for Entries<'tree> {
    ghost use Rattle.std.specs.Iterator.{YieldsFirst, item_count};

    type Item = Entry<'tree>;

    ghost next_gives = { YieldsFirst (λ e. e) };

    ghost remaining = { item_count (λ e. e) };

    fn next(&mut self) -> Option<Entry<'tree>> {
        while let [item, rest @ ..] = self.items {
            self.items = rest;
            if let Some(entry) = read_item(&mut self.sections, item) {
                return Some(entry);
            }
        }
        None
    }
}
