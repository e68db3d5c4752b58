//! Short texts that are put together in place, without memory of an allocator.
ghost use Rattle.std.specs.Prelude.{◌≡◌, ◌≤◌, ◌+◌, ◌++◌, [], length, decimal};
ghost use Rattle.qn_base.specs.Text.{yes_no};

use arrayvec::ArrayVec;
use itoa::Buffer;
use std::marker::Model;

/// `yes` or `no`.
pub fn yes_no(truth: bool) -> &'static [u8]
    ensures text { result.now ≡ yes_no truth }
    ensures len { length result.now ≤ 3 }
{
    if truth { b"yes" } else { b"no" }
}

/// Adds a text at the end of a list that has room for it.
pub fn add<const N: usize>(into: &mut ArrayVec<u8, N>, text: &[u8])
    requires { length into.old.items + length text.now ≤ N }
    ensures text { into.new.items ≡ into.old.items ++ text.now }
    ensures len { length into.new.items ≡ length into.old.items + length text.now }
{
    let _ = into.try_extend_from_slice(text);
}

/// Adds a number, in decimal digits, at the end of a list that has room for 20 digits.
pub fn add_number<const N: usize>(into: &mut ArrayVec<u8, N>, number: u64)
    requires { length into.old.items + 20 ≤ N }
    ensures text { into.new.items ≡ into.old.items ++ decimal number }
    ensures len { length into.new.items ≤ length into.old.items + 20 }
{
    if number < 10 {
        into.push(b'0' + number as u8);
    } else if number < 100 {
        into.push(b'0' + (number / 10) as u8);
        into.push(b'0' + (number % 10) as u8);
    } else {
        let mut digits = Buffer::new();
        add(into, digits.format(number).as_bytes());
    }
}

/// A text of at most 256 bytes while it is put together, without memory of its own.
#[derive(Drop)]
pub struct ShortText {
    bytes: ArrayVec<u8, 256>,
}

impl Model for ShortText {
    ghost use Rattle.std.specs.Prelude.{List, ℕ};

    ghost Value = { List ℕ };

    ghost view = { λ t. t.bytes.items };
}

impl ShortText {
    /// The empty text.
    pub fn new() -> Self
        ensures { result ≡ [] }
    {
        ShortText {
            bytes: ArrayVec::new(),
        }
    }

    /// Adds a text at the end.
    pub fn add(&mut self, text: &[u8])
        requires { length self.old + length text.now ≤ 256 }
        ensures text { self.new ≡ self.old ++ text.now }
        ensures len { length self.new ≡ length self.old + length text.now }
    {
        add(&mut self.bytes, text);
    }

    /// Adds a number at the end, in decimal digits.
    pub fn add_number(&mut self, number: u64)
        requires { length self.old + 20 ≤ 256 }
        ensures text { self.new ≡ self.old ++ decimal number }
        ensures len { length self.new ≤ length self.old + 20 }
    {
        add_number(&mut self.bytes, number);
    }

    /// The bytes so far.
    pub fn as_slice(&self) -> &[u8]
        ensures { result.now ≡ self.now }
    {
        self.bytes.as_slice()
    }
}
