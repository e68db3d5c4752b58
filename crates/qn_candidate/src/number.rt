//! The number of the next view, with the name of its candidate in the high byte.
ghost use Rattle.std.specs.Prelude.{◌≡◌, ◌<◌};
ghost use Rattle.qn_candidate.specs.Numbers.{is_name, next_plain, number_of, without_name, under_name};

use crate::candidate::Name;

/// What one in the high byte of a number stands for.
const HIGH: u64 = 1 << 56;

/// The number of the next view with a name, after the greatest number so far.
pub fn number_of(named: Name, greatest: u64) -> u64
    ensures { result ≡ number_of named greatest }
{
    let greatest = without_name(greatest);
    match named {
        Name::Least => next_plain(greatest),
        Name::One(rank) => {
            if rank.0 < 32 {
                under_name(u64::from(rank.0) + 1, greatest)
            } else {
                next_plain(greatest)
            }
        }
        Name::Nobody => under_name(254, greatest),
    }
}

/// Whether the high byte of a number names a rank, or that nobody may start.
fn is_name(number: u64) -> bool
    ensures { result ≡ is_name number }
{
    let high = number / HIGH;
    0 < high && high < 33 || high == 254
}

/// A number without its name.
pub fn without_name(number: u64) -> u64
    ensures { result ≡ without_name number }
{
    if is_name(number) {
        number % HIGH
    } else {
        number
    }
}

/// The next number without a name, the same again where there is none.
pub fn next_plain(number: u64) -> u64
    ensures { result ≡ next_plain number }
{
    if number == u64::MAX || is_name(number + 1) {
        number
    } else {
        number + 1
    }
}

/// The next number under a name.
fn under_name(high: u64, number: u64) -> u64
    requires { high < 256 }
    ensures { result ≡ under_name high number }
{
    high * HIGH + (number % HIGH + 1).min(HIGH - 1)
}
