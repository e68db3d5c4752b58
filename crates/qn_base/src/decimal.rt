//! Decimal numbers of at most 20 digits, read and written.
ghost use Rattle.std.specs.Prelude.{◌≡◌, ◌≤◌, ◌<◌, ◌^◌, ℕ, true, Some, length, decimal};
ghost use Rattle.std.specs.Str.{all_ascii_digits};
ghost use Rattle.std.specs.Str.Parse.{digits_value};
ghost use Rattle.qn_base.specs.Decimal.{number_of};

use arrayvec::ArrayVec;
use itoa::Buffer;

/// The most digits of a number of 64 bits.
const MAX_DIGITS: usize = 20;

/// The number that a text of 1 to 20 decimal digits spells, where it fits 64 bits. Leading zeros are
/// accepted; signs, blanks and the empty text are not.
pub fn read_decimal(text: &[u8]) -> Option<u64>
    ensures { result ≡ number_of text.now }
{
    if text.is_empty() || text.len() > MAX_DIGITS || !are_digits(text) {
        return None;
    }
    let last = text.len() - 1;
    let digit = u64::from(text[last] - b'0');
    let front = value_of_digits(text.split_at(last).0);
    front.checked_mul(10)?.checked_add(digit)
}

/// Empties `into` and writes the decimal digits of `n`, without leading zeros.
pub fn write_decimal(n: u64, into: &mut ArrayVec<u8, 20>)
    ensures digits { into.new.items ≡ decimal n }
    ensures reads_back { number_of into.new.items ≡ Some n }
{
    into.clear();
    let mut buffer = Buffer::new();
    let _ = into.try_extend_from_slice(buffer.format(n).as_bytes());
}

fn are_digits(text: &[u8]) -> bool
    ensures { result ≡ all_ascii_digits text.now }
{
    for byte in text {
        if !byte.is_ascii_digit() {
            return false;
        }
    }
    true
}

/// The value of at most 19 digits, which 64 bits hold.
fn value_of_digits(digits: &[u8]) -> u64
    requires short { length digits.now ≤ 19 }
    requires digits { all_ascii_digits digits.now ≡ true }
    ensures { result ≡ digits_value 10 digits.now }
{
    let mut value = 0u64;
    for digit in digits {
        value = value * 10 + u64::from(*digit - b'0');
    }
    value
}
