//! Reads the line of a schedule that gives the two times of a lease.
ghost use Rattle.std.specs.Prelude.{◌≡◌, ◌↔◌, Ok, IsTrue};
ghost use Rattle.std.specs.Option.{option_copied};
ghost use Rattle.qn_safety.specs.declared.lease.Lease.{Lease};
ghost use Rattle.qn_safety.specs.Lease.{is_in_range};
ghost use Rattle.qn_sched.specs.Words.{parts_left};
ghost use Rattle.qn_arbiter.specs.LeaseLine.{lease_line, lease_of, times_of_words};

use qn_base::{LONGEST_PERIOD, MOST_LINE_BYTES};
use qn_model::LineFault;
use qn_safety::{LONGEST_LEASE, Lease};
use qn_sched::{first_part, number_between, two_words};

/// The two times that a lease line gives, in milliseconds: a limit from 1 to `LONGEST_PERIOD` and a lease from 1 to
/// `LONGEST_LEASE`; whether they are safe is another question. The faults, in the order in which they are tried: TooLong
/// above `MOST_LINE_BYTES`, UnknownWord where the first word is not `lease`, BadCount where not two words follow,
/// BadNumber where a time is no number in range.
pub fn read_lease(line: &[u8]) -> Result<Lease, LineFault>
    ensures first_fault { result ≡ lease_of line.now }
    ensures spelled { (times : Lease)
        → (result ≡ Ok times) ↔ (IsTrue (is_in_range times) × (line.now ≡ lease_line times)) }
{
    read_line(line)
}

#[tactic(auto, unfolding(crate::specs::LeaseLine::lease_of, crate::specs::LeaseLine::lease_of_words))]
fn read_line(line: &[u8]) -> Result<Lease, LineFault>
    ensures { result ≡ lease_of line.now }
{
    if line.len() > MOST_LINE_BYTES {
        return Err(LineFault::TooLong);
    }
    let (first, rest) = first_part(line, b' ');
    if first != b"lease".as_slice() {
        return Err(LineFault::UnknownWord);
    }
    read_times(rest)
}

/// The two times of the words after the first.
#[tactic(auto, unfolding(crate::specs::LeaseLine::times_of_words))]
fn read_times(rest: Option<&[u8]>) -> Result<Lease, LineFault>
    ensures { result ≡ times_of_words (parts_left 32 (option_copied rest.entry)) }
{
    let (limit, lease) = two_words(rest)?;
    let limit = number_between(1, LONGEST_PERIOD, limit)?;
    let lease = number_between(1, LONGEST_LEASE, lease)?;
    Ok(Lease { limit, lease })
}
