//! How a replay ends.
use qn_conf::ConfFault;
use qn_model::{LineFault, Rule, Timing};
use qn_settings::SettingsFault;

/// How a replay ended. Lines are those of the whole input, from 1.
#[derive(Clone, Copy, PartialEq, Eq)]
pub enum ReplayEnd {
    /// The input was read to its end, and every line was good: so many were events.
    Done {
        events: u64,
    },
    /// The settings text is no configuration. Out of memory is `NoMemory` below.
    BadConf(ConfFault),
    /// The settings text is a configuration, and gives no settings.
    BadSettings(SettingsFault),
    /// The line is at fault.
    BadSchedule {
        line: u64,
        fault: LineFault,
    },
    /// The event of the line is refused by a rule of the world.
    NotAllowed {
        line: u64,
        rule: Rule,
    },
    /// A read failed, and no line before it is at fault.
    ReadFault,
    /// A write failed.
    WriteFault,
    /// The times of the timing line are in range, and not safe.
    UnsafeTiming(Timing),
    /// Only beside an arbiter: the two times of the lease line are in range, and not safe with the timeout of the
    /// device; without a device `timeout` is 0. All are in milliseconds.
    UnsafeLease {
        timeout: u64,
        limit: u64,
        lease: u64,
    },
    /// Out of memory.
    NoMemory,
}
