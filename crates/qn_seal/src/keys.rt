//! Keys, made of the bytes of key files.
ghost use Rattle.std.specs.Prelude.{◌≡◌};
ghost use Rattle.qn_seal.specs.Seals.{key_of};
ghost use Rattle.sha2.specs.Sha256.{sha256};

use crate::mac::tag_of;
use crate::opening::open;
use crate::seals::Seal;
use sha2::{Digest, Sha256};

/// A key.
#[derive(Clone, Copy, PartialEq, Eq)]
pub struct Key {
    /// What a sealed packet names it by.
    pub number: u8,
    pub secret: [u8; 32],
}

impl Key {
    /// The key of the bytes of a key file: its secret is their digest.
    #[tactic(auto, unfolding(crate::specs::Seals::key_of))]
    pub fn new(file: &[u8]) -> Key
        ensures { result ≡ key_of file.now }
    {
        let secret = digest_of(file);
        Key {
            number: tag_of(&secret, &[])[0],
            secret,
        }
    }
}

/// The keys of a node: the first one seals, each of them opens.
#[derive(Clone, Copy)]
pub struct Keys {
    pub first: Key,
    pub second: Option<Key>,
    pub third: Option<Key>,
}

impl Keys {
    ghost use Rattle.std.specs.Prelude.{◌≡◌, ◌≤◌, length, option_map, IfSome};
    ghost use Rattle.qn_seal.specs.Receiving.{opened_beside, opened_by};

    /// What the first key that opens these bytes gives, beside the first of the texts where one does and else beside the second: the seal, and the
    /// packet in it.
    #[tactic(auto, unfolding(crate::specs::Receiving::opened_by))]
    pub fn open<'a>(&self, texts: &Texts, from: &'a [u8]) -> Option<(Seal, &'a [u8])>
        ensures long { IfSome result (λ parts. 4 ≤ length parts.1.now) }
        ensures gives { option_map (λ parts. (parts.0, parts.1.now)) result
            ≡ opened_by self.now texts.now from.now }
    {
        if let Some(found) = self.open_beside(&texts.first, from) {
            return Some(found);
        }
        self.open_beside(texts.second.as_ref()?, from)
    }

    /// What the first key that opens these bytes beside that text gives.
    #[tactic(auto, unfolding(crate::specs::Receiving::opened_beside))]
    fn open_beside<'a>(&self, text: &[u8; 32], from: &'a [u8]) -> Option<(Seal, &'a [u8])>
        ensures long { IfSome result (λ parts. 4 ≤ length parts.1.now) }
        ensures gives { option_map (λ parts. (parts.0, parts.1.now)) result
            ≡ opened_beside self.now text.now from.now }
    {
        if let Some(found) = open(&self.first, text, from) {
            return Some(found);
        }
        if let Some(key) = &self.second
            && let Some(found) = open(key, text, from)
        {
            return Some(found);
        }
        open(self.third.as_ref()?, text, from)
    }
}

/// What stands for the settings text of a node in its tags, in two forms: it seals beside the first, and opens beside each.
#[derive(Clone, Copy)]
pub struct Texts {
    pub first: [u8; 32],
    pub second: Option<[u8; 32]>,
}

/// What stands for a settings text in a tag: its digest.
pub fn text_of(conf: &[u8]) -> [u8; 32]
    ensures { result ≡ sha256 conf.now }
{
    digest_of(conf)
}

fn digest_of(bytes: &[u8]) -> [u8; 32]
    ensures { result ≡ sha256 bytes.now }
{
    let mut hasher = Sha256::new();
    hasher.update(bytes);
    hasher.finalize()
}
