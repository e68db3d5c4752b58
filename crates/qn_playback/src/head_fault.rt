//! How the reading of a settings text and the line `----` ends early.
use qn_conf::ConfFault;
use qn_model::LineFault;
use qn_sched::ReplayEnd;
use qn_settings::{SettingsFault, TextFault};

/// How the reading of a settings text and the line `----` ended early. Lines are those of the whole input, from 1.
#[derive(Clone, Copy, PartialEq, Eq)]
pub enum HeadFault {
    /// The settings text is no configuration. Out of memory is `NoMemory` below.
    BadConf(ConfFault),
    /// The settings text is a configuration, and gives no settings.
    BadSettings(SettingsFault),
    /// The line is at fault: the input ended before the line `----`.
    BadSchedule { line: u64, fault: LineFault },
    /// A read failed, and nothing before it is at fault.
    ReadFault,
    /// Out of memory.
    NoMemory,
}

impl From<TextFault> for HeadFault {
    ghost use Rattle.std.specs.Prelude.{◌≡◌};
    ghost use Rattle.qn_playback.specs.Faults.{fault_of_text};

    ghost from_gives = { λ fault end. end ≡ fault_of_text fault };

    fn from(fault: TextFault) -> HeadFault {
        match fault {
            TextFault::Conf(ConfFault::NoMemory) => HeadFault::NoMemory,
            TextFault::Conf(fault) => HeadFault::BadConf(fault),
            TextFault::Settings(fault) => HeadFault::BadSettings(fault),
        }
    }
}

impl From<HeadFault> for ReplayEnd {
    ghost use Rattle.std.specs.Prelude.{◌≡◌};
    ghost use Rattle.qn_playback.specs.Faults.{end_of};

    ghost from_gives = { λ fault end. end ≡ end_of fault };

    fn from(fault: HeadFault) -> ReplayEnd {
        match fault {
            HeadFault::BadConf(fault) => ReplayEnd::BadConf(fault),
            HeadFault::BadSettings(fault) => ReplayEnd::BadSettings(fault),
            HeadFault::BadSchedule { line, fault } => ReplayEnd::BadSchedule { line, fault },
            HeadFault::ReadFault => ReplayEnd::ReadFault,
            HeadFault::NoMemory => ReplayEnd::NoMemory,
        }
    }
}
