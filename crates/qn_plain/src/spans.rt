//! Whether a span of time has passed between two ticks.
ghost use Rattle.std.specs.Prelude.{◌≡◌, ◌+◌, nat_le};

/// Whether at least this span of milliseconds lies between the two ticks.
pub fn has_passed(since: u64, span: u64, now: u64) -> bool
    ensures { result ≡ nat_le (since + span) now }
{
    since <= now && now - since >= span
}

/// Whether at most this span of milliseconds lies between the two ticks.
pub fn is_within(since: u64, span: u64, now: u64) -> bool
    ensures { result ≡ nat_le now (since + span) }
{
    now <= since || now - since <= span
}
