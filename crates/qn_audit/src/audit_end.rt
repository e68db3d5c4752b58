//! How the audit of a recorded node ends.
use qn_conf::ConfFault;
use qn_model::LineFault;
use qn_playback::HeadFault;
use qn_settings::SettingsFault;

/// How an audit ended. Lines are those of the whole input, from 1.
#[derive(Clone, Copy, PartialEq, Eq)]
pub enum AuditEnd {
    /// The log was read to its end, and is a whole run of so many turns.
    Whole { turns: u64 },
    /// The log was read to its end, and is the beginning of a run, of so many turns.
    Prefix { turns: u64 },
    /// The call of the line is the first that the run does not ask for.
    NotARun { line: u64 },
    /// No node of the settings has the id.
    UnknownNode,
    /// The settings text is no configuration. Out of memory is `NoMemory` below.
    BadConf(ConfFault),
    /// The settings text is a configuration, and gives no settings.
    BadSettings(SettingsFault),
    /// The line is at fault.
    BadSchedule { line: u64, fault: LineFault },
    /// A read failed, and no line before it is at fault.
    ReadFault,
    /// Out of memory.
    NoMemory,
}

impl From<HeadFault> for AuditEnd {
    ghost use Rattle.std.specs.Prelude.{◌≡◌};
    ghost use Rattle.qn_audit.specs.Inputs.{end_in_head};

    ghost from_gives = { λ fault end. end ≡ end_in_head fault };

    fn from(fault: HeadFault) -> AuditEnd {
        match fault {
            HeadFault::BadConf(fault) => AuditEnd::BadConf(fault),
            HeadFault::BadSettings(fault) => AuditEnd::BadSettings(fault),
            HeadFault::BadSchedule { line, fault } => AuditEnd::BadSchedule { line, fault },
            HeadFault::ReadFault => AuditEnd::ReadFault,
            HeadFault::NoMemory => AuditEnd::NoMemory,
        }
    }
}
