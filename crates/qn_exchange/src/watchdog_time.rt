//! The times of a watchdog: that of the device, and that of the image.
ghost use Rattle.std.specs.Prelude.{◌≡◌};
ghost use Rattle.qn_exchange.specs.WatchdogTimes.{is_time_safe, seconds_in};

use qn_base::read_decimal;

/// Whether a device that resets its machine so many seconds after the last byte may be armed beside an image that says so many
/// milliseconds.
pub fn is_time_safe(seconds: u64, watchdog: u64) -> bool
    ensures { result ≡ is_time_safe seconds watchdog }
{
    match seconds.checked_mul(1000) {
        Some(time) => seconds > 0 && time <= watchdog,
        None => false,
    }
}

/// The seconds that the text of `timeout` of a watchdog in /sys says: a number of decimal digits, and the end of its line.
pub fn seconds_of(text: &[u8]) -> Option<u64>
    ensures { result ≡ seconds_in text.now }
{
    let last = text.len().checked_sub(1)?;
    if text[last] != b'\n' {
        return None;
    }
    read_decimal(text.split_at(last).0)
}
