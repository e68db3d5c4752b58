//! A short text of UTF-8, without memory of an allocator.
ghost use Rattle.std.specs.Prelude.{◌≡◌, ◌≤◌, ◌<◌, IfSome, length, None};

use arrayvec::ArrayString;
use std::marker::Model;

/// A text of at most 256 bytes.
#[derive(Drop)]
pub struct ShortString {
    text: ArrayString<256>,
}

impl Model for ShortString {
    ghost use Rattle.std.specs.Prelude.{List, ℕ};

    ghost Value = { List ℕ };

    ghost view = { λ s. s.text.bytes };
}

impl ShortString {
    /// That text, where it has at most `most` bytes, which are at most 256.
    pub fn of(text: &str, most: usize) -> Option<ShortString>
        requires { most ≤ 256 }
        ensures text { IfSome result (λ made. made ≡ text.now) }
        ensures fits { IfSome result (λ made. length made ≤ most) }
        ensures long { result ≡ None → most < length text.now }
    {
        if text.len() > most {
            return None;
        }
        let mut made = ArrayString::new();
        made.push_str(text);
        Some(ShortString { text: made })
    }

    /// The text.
    pub fn as_str(&self) -> &str
        ensures { result.now ≡ self.now }
    {
        self.text.as_str()
    }
}
