//! The bytes of a call in a log, as lower-case hex.
ghost use Rattle.std.specs.Prelude.{◌≡◌, ◌≤◌, ◌<◌, ◌*◌, false, if◌then◌else◌, length, codes, Err, None, IfErr, IfOk, IfSome, OnOk};
ghost use Rattle.std.specs.Char.{is_ascii_uppercase};
ghost use Rattle.std.specs.Str.{bytes_eq};
ghost use Rattle.hex.specs.Hex.{hex_digit_value};
ghost use Rattle.qn_audit.specs.LoggedCalls.{filled_in, front_in};
ghost use Rattle.qn_audit.specs.Reading.{HasNoSpace, bytes_between, digits_of};

use crate::log_word::is_word;
use arrayvec::ArrayVec;
use qn_io::SENT_PACKET;
use qn_model::LineFault;

/// Puts the bytes that a word spells at the beginning of `into`, from `least` of them to all of it, and says how many they are.
/// BadNumber otherwise; what `into` holds then is not said.
pub(crate) fn bytes_into(least: usize, word: &[u8], into: &mut [u8]) -> Result<usize, LineFault>
    requires { length into.old ≤ 512 }
    ensures bytes { front_in result into.new ≡ bytes_between least (length into.old) word.now }
    ensures least { IfOk result (λ count. least ≤ count) }
    ensures most { IfOk result (λ count. count ≤ length into.old) }
    ensures one_word { OnOk result (HasNoSpace word.now) }
{
    if is_word(word, b"-") {
        if least > 0 {
            return Err(LineFault::BadNumber);
        }
        return Ok(0);
    }
    let count = count_of(least, into.len(), word)?;
    decode(word, into.split_at_mut(count).0)?;
    Ok(count)
}

/// Empties `into` and puts the bytes that a word spells into it, at most 128 of them. BadNumber otherwise; what `into`
/// holds then is not said.
pub(crate) fn sent_into(word: &[u8], into: &mut ArrayVec<u8, SENT_PACKET>) -> Result<(), LineFault>
    ensures bytes { filled_in result into.new.items ≡ bytes_between 0 128 word.now }
    ensures most { OnOk result (length into.new.items ≤ 128) }
{
    let mut bytes = [0; SENT_PACKET];
    let count = bytes_into(0, word, &mut bytes)?;
    into.clear();
    let _ = into.try_extend_from_slice(bytes.split_at(count).0);
    Ok(())
}

/// How many bytes the digits of a word spell, from `least` to `most`. BadNumber where they are too few or too many.
fn count_of(least: usize, most: usize, word: &[u8]) -> Result<usize, LineFault>
    requires some { bytes_eq word.now (codes "-") ≡ false }
    requires most { most ≤ 512 }
    ensures count { IfOk result (λ count. length word.now ≡ 2 * count) }
    ensures some { IfOk result (λ count. 0 < count) }
    ensures least { IfOk result (λ count. least ≤ count) }
    ensures most { IfOk result (λ count. count ≤ most) }
    ensures fault { IfErr result (λ fault. bytes_between least most word.now ≡ Err fault) }
{
    let count = word.len() / 2;
    if word.is_empty() || word.len() % 2 != 0 || count < least || most < count {
        return Err(LineFault::BadNumber);
    }
    Ok(count)
}

/// Fills `into` with the bytes that lower-case digits spell, two a byte. BadNumber where a byte of the word is none.
fn decode(word: &[u8], into: &mut [u8]) -> Result<(), LineFault>
    requires digits { length word.now ≡ 2 * length into.old }
    requires some { 0 < length into.old }
    requires most { length into.old ≤ 512 }
    ensures bytes { filled_in result into.new ≡ digits_of word.now }
    ensures one_word { OnOk result (HasNoSpace word.now) }
{
    for i in 0..into.len() {
        let Some(high) = digit_of(word[2 * i]) else {
            return Err(LineFault::BadNumber);
        };
        let Some(low) = digit_of(word[2 * i + 1]) else {
            return Err(LineFault::BadNumber);
        };
        into[i] = high * 16 + low;
    }
    Ok(())
}

/// The value of a lower-case digit.
fn digit_of(digit: u8) -> Option<u8>
    ensures value { result ≡ (if is_ascii_uppercase digit then None else hex_digit_value digit) }
    ensures small { IfSome result (λ value. value < 16) }
{
    match digit {
        b'0'..=b'9' => Some(digit - b'0'),
        b'a'..=b'f' => Some(digit - b'a' + 10),
        _ => None,
    }
}
