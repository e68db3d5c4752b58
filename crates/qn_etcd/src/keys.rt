//! The keys that keep an image under a prefix.
ghost use Rattle.std.specs.Prelude.{◌≡◌, ◌<◌, ◌≤◌, ◌+◌, ◌%◌, ◌++◌, length, codes};
ghost use Rattle.arrayvec.specs.ArrayVec.{array_vec_len};
ghost use Rattle.qn_etcd.specs.Keys.{digit, sector_key as sector_key_text, writer_key as writer_key_text, first_key as first_key_text, end_key as end_key_text};

use arrayvec::ArrayVec;

/// How many bytes a prefix has at most.
pub const MOST_PREFIX: usize = 96;

/// How many bytes a key has at most.
const MOST_KEY: usize = 112;

/// A key of an image.
pub type Key = ArrayVec<u8, MOST_KEY>;

/// The key of a sector.
#[tactic(auto, unfolding(crate::specs::Keys::sector_key))]
pub fn sector_key(prefix: &[u8], sector: u32) -> Key
    requires prefix { length prefix.now ≤ 96 }
    requires sector { sector < 10000 }
    ensures { result.items ≡ sector_key_text prefix.now sector }
{
    let mut key = Key::new();
    add(&mut key, prefix);
    add(&mut key, b"/");
    add(
        &mut key,
        &[
            digit(sector / 1000),
            digit(sector / 100),
            digit(sector / 10),
            digit(sector),
        ],
    );
    key
}

/// The key that holds the token of the boot that may read and write for the node of that rank.
#[tactic(auto, unfolding(crate::specs::Keys::writer_key))]
pub fn writer_key(prefix: &[u8], rank: u8) -> Key
    requires { length prefix.now ≤ 96 }
    ensures { result.items ≡ writer_key_text prefix.now rank }
{
    let mut key = Key::new();
    add(&mut key, prefix);
    add(&mut key, b"/writer/");
    let rank = u32::from(rank);
    add(&mut key, &[digit(rank / 10), digit(rank)]);
    key
}

/// The first of all keys of the prefix.
#[tactic(auto, unfolding(crate::specs::Keys::first_key))]
pub(crate) fn first_key(prefix: &[u8]) -> Key
    requires { length prefix.now ≤ 96 }
    ensures { result.items ≡ first_key_text prefix.now }
{
    let mut key = Key::new();
    add(&mut key, prefix);
    add(&mut key, b"/");
    key
}

/// The key after all keys of the prefix.
#[tactic(auto, unfolding(crate::specs::Keys::end_key))]
pub(crate) fn end_key(prefix: &[u8]) -> Key
    requires { length prefix.now ≤ 96 }
    ensures { result.items ≡ end_key_text prefix.now }
{
    let mut key = Key::new();
    add(&mut key, prefix);
    add(&mut key, b"0");
    key
}

fn add(key: &mut Key, bytes: &[u8])
    requires { array_vec_len key.old + length bytes.now ≤ 112 }
    ensures { key.new.items ≡ key.old.items ++ bytes.now }
{
    let _ = key.try_extend_from_slice(bytes);
}

/// The last decimal digit of a number.
fn digit(number: u32) -> u8
    ensures { result ≡ digit number }
{
    b'0' + (number % 10) as u8
}
