//! The tag of a message under a shared key: HMAC-SHA-256 (RFC 2104), at a key of 32 bytes.
//!
//! Promises: a tag is exactly that of the key and the message. That nobody makes it without the key rests on HMAC-SHA-256 alone, and
//! no clause says it.

ghost use Rattle.std.specs.Prelude.{◌≡◌, ◌++◌, map, bit_xor};
ghost use Rattle.sha2.specs.Sha256.{sha256};
ghost use Rattle.qn_seal.specs.Hmac.{hmac, padded};

use sha2::{Digest, Sha256};

/// How many bytes a key has.
pub const KEY: usize = 32;

/// How many bytes a tag has.
pub const TAG: usize = 32;

/// What a key is masked with before the message.
const INNER_PAD: u8 = 0x36;

/// What a key is masked with before the digest of the message.
const OUTER_PAD: u8 = 0x5c;

/// The tag of a message.
pub fn tag_of(key: &[u8; KEY], message: &[u8]) -> [u8; TAG]
    ensures { result ≡ hmac key.now message.now }
{
    let inner = digest_under(key, INNER_PAD, message);
    digest_under(key, OUTER_PAD, &inner)
}

/// The tag of two pieces that are taken as one message.
pub fn tag_of_two(key: &[u8; KEY], first: &[u8], second: &[u8]) -> [u8; TAG]
    ensures { result ≡ hmac key.now (first.now ++ second.now) }
{
    let mut hasher = Sha256::new();
    hasher.update(&masked(key, INNER_PAD));
    hasher.update(&[INNER_PAD; 32]);
    hasher.update(first);
    hasher.update(second);
    digest_under(key, OUTER_PAD, &hasher.finalize())
}

/// The digest of a message after the key, masked with that byte and filled to a block.
fn digest_under(key: &[u8; KEY], byte: u8, message: &[u8]) -> [u8; TAG]
    ensures { result ≡ sha256 (padded byte key.now ++ message.now) }
{
    let mut hasher = Sha256::new();
    hasher.update(&masked(key, byte));
    hasher.update(&[byte; 32]);
    hasher.update(message);
    hasher.finalize()
}

/// The key, each of its bytes xored with that byte.
fn masked(key: &[u8; KEY], byte: u8) -> [u8; KEY]
    ensures { result ≡ map (λ b. bit_xor b byte) key.now }
{
    let mut masked = *key;
    for place in masked.iter_mut() {
        *place ^= byte;
    }
    masked
}
