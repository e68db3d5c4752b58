//! The two times of a leased vote at a device.
ghost use Rattle.std.specs.Prelude.{◌≡◌, ◌≤◌, ◌<◌, ◌+◌, ◌*◌, ℕ, false, IsTrue, Some};
ghost use Rattle.qn_base.specs.declared.limits.TheConstants.{LONGEST_PERIOD};
ghost use Rattle.qn_model.specs.declared.configuration.Settings.{Settings};
ghost use Rattle.qn_safety.specs.Lease.{is_safe_lease};
ghost use Rattle.qn_polls.specs.Times.{lease_of, limit_of, times_of};

use qn_model::Device;
use qn_safety::Lease;

/// The limit and the lease at a device, in milliseconds (this project's profile): the limit is a fifth of the device's timeout, and 1 at
/// least; the lease is the least that is safe with it.
pub fn least_lease(device: Device) -> Lease
    requires some { 1 ≤ device.timeout }
    requires within { device.timeout ≤ LONGEST_PERIOD }
    ensures times { result ≡ times_of device }
    ensures safe { (s : Settings) → s.device ≡ Some device → IsTrue (is_safe_lease s result) }
    ensures least { (s : Settings) (lease : ℕ) → s.device ≡ Some device → lease < result.lease
        → is_safe_lease s (record { limit = result.limit; lease = lease }) ≡ false }
{
    let limit = limit_of(device.timeout);
    Lease {
        limit,
        lease: lease_of(limit + device.timeout),
    }
}

/// The limit at a timeout.
fn limit_of(timeout: u64) -> u64
    ensures value { result ≡ limit_of timeout }
    ensures within { result ≤ timeout + 1 }
{
    (timeout / 5).max(1)
}

/// The least lease that outlasts so many milliseconds, with clocks one per cent off.
fn lease_of(counted: u64) -> u64
    requires { counted ≤ 2 * LONGEST_PERIOD + 1 }
    ensures { result ≡ lease_of counted }
{
    (101 * counted).div_ceil(99) + 1
}
