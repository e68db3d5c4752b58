//! Reads numbers that have a range and no leading zero.
ghost use Rattle.std.specs.Prelude.{◌≡◌, ◌≤◌, ◌<◌, IfOk, length};
ghost use Rattle.qn_model.specs.Lines.{has_leading_zero, number_between};

use qn_base::read_decimal;
use qn_model::LineFault;

/// The number that a word spells, which has no leading zero and is from `low` to `high`. BadNumber
/// otherwise.
#[tactic(auto, unfolding(qn_model::specs::Lines::number_between))]
pub fn number_between(low: u64, high: u64, word: &[u8]) -> Result<u64, LineFault>
    ensures value { result ≡ number_between low high word.now }
    ensures range { IfOk result (λ number. (low ≤ number) × (number ≤ high)) }
{
    let number = read_decimal(word).ok_or(LineFault::BadNumber)?;
    if has_leading_zero(word) || number < low || high < number {
        return Err(LineFault::BadNumber);
    }
    Ok(number)
}

/// Whether a zero stands before further digits.
fn has_leading_zero(word: &[u8]) -> bool
    ensures { result ≡ has_leading_zero word.now }
{
    word.len() > 1 && word[0] == b'0'
}
