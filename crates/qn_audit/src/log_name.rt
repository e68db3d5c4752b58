//! The first words of the lines of a log.
ghost use Rattle.std.specs.Prelude.{◌≡◌};
ghost use Rattle.qn_live.specs.declared.asked.Room.{Room};
ghost use Rattle.qn_audit.specs.LogNames.{device_call, device_word, log_name, log_word};
ghost use Rattle.qn_audit.specs.LoggedCalls.{IsToldIn, call_in};

use crate::log_word::is_word;
use crate::logged_call::LoggedCall;
use qn_live::{Asked, Given};

/// What the first word of a line says.
#[derive(Clone, Copy)]
pub(crate) enum LogName {
    Now,
    Receive,
    Read,
    Write,
    Send,
    Halt,
    /// A call of the watchdog or of the resource, which says its answer alone.
    OfDevice(DeviceCall),
}

/// A call of the watchdog or of the resource.
#[derive(Clone, Copy)]
pub(crate) enum DeviceCall {
    Feed,
    Start,
    Stop,
    Disarm,
}

/// The names of all calls that a log has.
const LOG_NAMES: [LogName; 10] = [
    LogName::Now,
    LogName::Receive,
    LogName::Read,
    LogName::Write,
    LogName::Send,
    LogName::Halt,
    LogName::OfDevice(DeviceCall::Feed),
    LogName::OfDevice(DeviceCall::Start),
    LogName::OfDevice(DeviceCall::Stop),
    LogName::OfDevice(DeviceCall::Disarm),
];

impl DeviceCall {
    /// The first word of its line.
    pub(crate) fn word(self) -> &'static str
        ensures { result.now ≡ device_word self }
    {
        match self {
            DeviceCall::Feed => "feed",
            DeviceCall::Start => "start",
            DeviceCall::Stop => "stop",
            DeviceCall::Disarm => "disarm",
        }
    }

    /// The call with its answer.
    pub(crate) fn with(self, ok: bool) -> LoggedCall
        ensures call { (room : Room) → call_in result room ≡ device_call self ok }
        ensures told { (room : Room) → IsToldIn result room }
    {
        let asked = match self {
            DeviceCall::Feed => Asked::Feed,
            DeviceCall::Start => Asked::Start,
            DeviceCall::Stop => Asked::Stop,
            DeviceCall::Disarm => Asked::Disarm,
        };
        LoggedCall {
            asked,
            given: Given::done(ok),
        }
    }
}

impl LogName {
    /// The first word of its line.
    pub(crate) fn word(self) -> &'static str
        ensures { result.now ≡ log_word self }
    {
        match self {
            LogName::Now => "now",
            LogName::Receive => "receive",
            LogName::Read => "read",
            LogName::Write => "write",
            LogName::Send => "send",
            LogName::Halt => "halt",
            LogName::OfDevice(call) => call.word(),
        }
    }
}

/// The name that a first word is, or none.
#[tactic(auto, unfolding(crate::specs::LogNames::log_name))]
pub(crate) fn log_name(word: &[u8]) -> Option<LogName>
    ensures { result ≡ log_name word.now }
{
    LOG_NAMES
        .iter()
        .copied()
        .find(|name| is_word(name.word().as_bytes(), word))
}
