//! The last value of a key, as a number, a flag or a device.
ghost use Rattle.std.specs.Prelude.{◌≡◌, ◌≤◌, IfSome};
ghost use Rattle.qn_settings.specs.Entries.{entries_of};
ghost use Rattle.qn_settings.specs.Nodes.{own_entries};
ghost use Rattle.qn_settings.specs.Values.{bad_number, bad_number_in, flag, has_device, is_zero, last_value, number, unsupported, wrong_provider};

use crate::entries::{Entries, Entry};
use crate::faults::SettingsFault;
use crate::key::Key;
use qn_base::read_decimal;
use qn_conf::{Tree, Word};

/// The last value of a key among entries.
pub(crate) fn last_value<'tree>(entries: Entries<'tree>, key: Key) -> Option<Word<'tree>>
    ensures { result ≡ last_value key entries.entry }
{
    let mut last = None;
    for entry in entries {
        if let Entry::Written(own, value) = entry
            && own == key
        {
            last = Some(value);
        }
    }
    last
}

/// The last value of a key before the next node section begins.
pub(crate) fn last_own_value<'tree>(entries: Entries<'tree>, key: Key) -> Option<Word<'tree>>
    ensures { result ≡ last_value key (own_entries entries.entry) }
{
    let mut last = None;
    for entry in entries {
        match entry {
            Entry::NodeBegins => return last,
            Entry::Written(own, value) => {
                if own == key {
                    last = Some(value);
                }
            }
        }
    }
    last
}

/// The number of a key, where it is written.
pub(crate) fn number(tree: &Tree, key: Key) -> Option<u64>
    ensures value { result ≡ number key (entries_of tree.now) }
    ensures fits { IfSome result (λ n. n ≤ 4294967295) }
{
    key.number(last_value(Entries::of(tree), key)?.bytes())
}

/// Whether a flag is written with the value 1.
pub(crate) fn flag(tree: &Tree, key: Key) -> bool
    ensures { result ≡ flag key (entries_of tree.now) }
{
    number(tree, key).is_some_and(|value| value == 1)
}

/// Whether there is a device.
pub(crate) fn has_device(tree: &Tree) -> bool
    ensures { result ≡ has_device (entries_of tree.now) }
{
    last_value(Entries::of(tree), Key::Model).is_some()
}

pub(crate) fn wrong_provider(tree: &Tree) -> Option<SettingsFault>
    ensures { result ≡ wrong_provider (entries_of tree.now) }
{
    let provider = last_value(Entries::of(tree), Key::Provider)?;
    if provider.bytes() == b"corosync_votequorum".as_slice() {
        return None;
    }
    Some(SettingsFault::WrongProvider)
}

/// The key may only be a decimal zero.
pub(crate) fn unsupported(tree: &Tree, key: Key) -> Option<SettingsFault>
    ensures { result ≡ unsupported key (entries_of tree.now) }
{
    let value = last_value(Entries::of(tree), key)?;
    if is_zero(value.bytes()) {
        return None;
    }
    Some(SettingsFault::Unsupported { key })
}

fn is_zero(value: &[u8]) -> bool
    ensures { result ≡ is_zero value.now }
{
    read_decimal(value).is_some_and(|number| number == 0)
}

/// The first value that is no number in the range of its key.
pub(crate) fn bad_number(tree: &Tree) -> Option<SettingsFault>
    ensures { result ≡ bad_number (entries_of tree.now) }
{
    let device = has_device(tree);
    for entry in Entries::of(tree) {
        if let Some(fault) = bad_number_in(device, &entry) {
            return Some(fault);
        }
    }
    None
}

fn bad_number_in(device: bool, entry: &Entry) -> Option<SettingsFault>
    ensures { result ≡ bad_number_in device entry.now }
{
    let Entry::Written(key, value) = entry else {
        return None;
    };
    let key = *key;
    let tried = device || (key != Key::Votes && key != Key::Timeout);
    if tried && key.has_range() && key.number(value.bytes()).is_none() {
        return Some(SettingsFault::BadNumber { key });
    }
    None
}
