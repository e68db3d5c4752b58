//! The two times of a leased vote, and whether they are safe.
ghost use Rattle.std.specs.Prelude.{◌≡◌, ◌≤◌, IsTrue};
ghost use Rattle.qn_safety.specs.Lease.{is_in_range, is_safe_lease, outlasts_yes};

use qn_base::LONGEST_PERIOD;
use qn_model::{Device, Settings};

/// The longest lease, in milliseconds: ten hours (this project's profile).
pub const LONGEST_LEASE: u64 = 36_000_000;

/// The two times of a leased vote, in milliseconds (this project's profile).
#[derive(Clone, Copy, PartialEq, Eq)]
pub struct Lease {
    /// How old a node's poll may be when its reply is taken: 1 to `LONGEST_PERIOD`.
    pub limit: u64,
    /// For how long a yes of the arbiter binds it, and how long it says no after its boot: 1 to `LONGEST_LEASE`.
    pub lease: u64,
}

/// Whether a device is configured, both times are in range, and a yes that a node still counts is a live one of the
/// arbiter, with clocks that may be one per cent off.
pub fn lease_safe(settings: &Settings, lease: &Lease) -> bool
    ensures { result ≡ is_safe_lease settings.now lease.now }
{
    match settings.device {
        Some(device) => is_in_range(lease) && outlasts_yes(lease, device),
        None => false,
    }
}

fn is_in_range(lease: &Lease) -> bool
    ensures exact { result ≡ is_in_range lease.now }
    ensures limit { IsTrue result → lease.now.limit ≤ LONGEST_PERIOD }
    ensures lease { IsTrue result → lease.now.lease ≤ LONGEST_LEASE }
{
    lease.limit >= 1
        && lease.limit <= LONGEST_PERIOD
        && lease.lease >= 1
        && lease.lease <= LONGEST_LEASE
}

fn outlasts_yes(lease: &Lease, device: Device) -> bool
    requires limit { lease.now.limit ≤ LONGEST_PERIOD }
    requires lease { lease.now.lease ≤ LONGEST_LEASE }
    ensures { result ≡ outlasts_yes lease.now device }
{
    let counted = u128::from(lease.limit) + u128::from(device.timeout);
    u128::from(99 * lease.lease.saturating_sub(1)) >= 101 * counted
}
