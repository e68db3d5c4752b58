//! What a value of a line says.
ghost use Rattle.std.specs.Prelude.{◌≡◌, ◌<◌, ◌≤◌, ◌+◌, IfSome, Some, None, true, false, length, nat_le, option_map, if◌then◌else◌};
ghost use Rattle.arrayvec.specs.ArrayVec.{array_vec_len};
ghost use Rattle.qn_event.specs.ValuesRead.{byte_before, byte_of, digit_value, value_in};

use crate::event_line::EVENT_WORDS;
use arrayvec::ArrayVec;

/// The text that a value says; None where it is longer than the words of a line, or a % in it has no two digits behind it.
pub fn read_value(value: &[u8]) -> Option<ArrayVec<u8, EVENT_WORDS>>
    ensures { option_map (λ said. said.items) result
        ≡ (if nat_le (length value.now) 384 then value_in value.now else None) }
{
    let count = value.len();
    if count > EVENT_WORDS {
        return None;
    }
    let mut said = ArrayVec::new();
    for place in 0..count {
        if !read_before(value[count - 1 - place], &mut said) {
            return None;
        }
    }
    Some(said)
}

/// Reads a byte that stands before what was said by what follows it; whether it says something there.
fn read_before(byte: u8, said: &mut ArrayVec<u8, EVENT_WORDS>) -> bool
    requires { array_vec_len said.old < 384 }
    ensures said { result ≡ true → byte_before byte said.old.items ≡ Some said.new.items }
    ensures nothing { result ≡ false → byte_before byte said.old.items ≡ None }
    ensures fits { array_vec_len said.new ≤ array_vec_len said.old + 1 }
{
    if byte != b'%' {
        said.insert(0, byte);
        return true;
    }
    let read = match said.as_slice() {
        [high, low, ..] => byte_of(*high, *low),
        [] | [_] => None,
    };
    match read {
        Some(byte) => {
            said.remove(0);
            said.remove(0);
            said.insert(0, byte);
            true
        }
        None => false,
    }
}

/// The byte of two digits.
fn byte_of(high: u8, low: u8) -> Option<u8>
    ensures { result ≡ byte_of high low }
{
    let high = digit_value(high)?;
    let low = digit_value(low)?;
    Some(16 * high + low)
}

/// The number of a digit.
fn digit_value(digit: u8) -> Option<u8>
    ensures value { result ≡ digit_value digit }
    ensures small { IfSome result (λ value. value < 16) }
{
    match digit {
        b'0'..=b'9' => Some(digit - b'0'),
        b'A'..=b'F' => Some(digit - 55),
        _ => None,
    }
}
