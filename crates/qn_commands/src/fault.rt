//! Why a command did not do its work, and the last line that says so.
ghost use Rattle.std.specs.Prelude.{◌≡◌, ◌≤◌, ◌++◌, length, codes, decimal};
ghost use Rattle.qn_settings.specs.Keys.{key_name};
ghost use Rattle.qn_commands.specs.Faults.{clock_line, conf_line, deadly_line, disk_fault, fault_line, lease_line, refused_line, reset_line, schedule_line, settings_line, status_of, text_fault, timing_line};
ghost use Rattle.qn_commands.specs.Statuses.{code_of};

use crate::status::Status;
use qn_base::{NodeId, ShortText};
use qn_conf::ConfFault;
use qn_image::ImageFault;
use qn_model::{BootCause, LineFault, Message, Rule, Timing};
use qn_names::cause_number;
use qn_settings::{Key, SettingsFault, TextFault};

/// The two times of a lease and the timeout of the device, 0 without one, in milliseconds.
#[derive(Clone, Copy)]
pub struct LeaseTimes {
    pub timeout: u64,
    pub limit: u64,
    pub lease: u64,
}

/// Why a command did not do its work, with what its last line says.
#[derive(Clone, Copy)]
pub enum Fault {
    /// The words are no command.
    Usage,
    /// The settings text is no configuration, or there was no memory for it.
    BadConf(ConfFault),
    /// The settings text is a configuration, and gives no settings.
    BadSettings(SettingsFault),
    /// The settings have no quorum device, so no arbiter is asked.
    NoArbiter,
    /// The line is at fault.
    BadSchedule { line: u64, fault: LineFault },
    /// The event of the line is refused by a rule of the world.
    NotAllowed { line: u64, rule: Rule },
    /// The input could not be read.
    ReadFault,
    /// The image could not be opened, read or written, or a running node not be opened.
    EnvFault,
    /// The sector is no spelling.
    BadImage { sector: u32 },
    /// The times are in range, and not safe.
    UnsafeTiming(Timing),
    /// The two times of a lease are in range, and not safe with the timeout of the device.
    UnsafeLease(LeaseTimes),
    /// Out of memory.
    NoMemory,
    /// The clock of a running node went back: the tick of the turn before, and the one that followed.
    ClockBack { before: u64, now: u64 },
    /// A running node read this deadly message in its mailbox.
    SelfReset(Message),
    /// A step of the boot of a running node halted it.
    BootHalted(BootCause),
    /// The mailbox holds this deadly message, which a test or an exit is not to replace.
    DeadlyThere(Message),
    /// No slot of the image, or no node of the settings, has the id.
    UnknownNode { id: NodeId },
    /// The call of the line is the first of a log that the run does not ask for.
    NotARun { line: u64 },
}

impl Fault {
    /// The status that belongs to the fault.
    pub fn status(self) -> Status
        ensures { code_of result ≡ status_of self }
    {
        match self {
            Fault::Usage => Status::Usage,
            Fault::BadConf(ConfFault::NoMemory) | Fault::NoMemory => Status::NoMemory,
            Fault::BadConf(_) | Fault::BadSettings(_) | Fault::NoArbiter => Status::BadConf,
            Fault::BadSchedule { .. } => Status::BadSchedule,
            Fault::NotAllowed { .. } => Status::NotAllowed,
            Fault::ReadFault => Status::ReadFault,
            Fault::EnvFault => Status::EnvFault,
            Fault::BadImage { .. } => Status::BadImage,
            Fault::UnsafeTiming(_) => Status::UnsafeTiming,
            Fault::UnsafeLease(_) => Status::UnsafeLease,
            Fault::ClockBack { .. } => Status::ClockBack,
            Fault::SelfReset(_) => Status::SelfReset,
            Fault::BootHalted(_) => Status::BootHalted,
            Fault::DeadlyThere(_) => Status::DeadlyThere,
            Fault::UnknownNode { .. } => Status::UnknownNode,
            Fault::NotARun { .. } => Status::NotARun,
        }
    }

    /// The last line of the command.
    pub fn line(self) -> ShortText
        ensures { result ≡ fault_line self }
    {
        match self {
            Fault::Usage => whole(b"fault Usage\n"),
            Fault::BadConf(fault) => conf_line(fault),
            Fault::BadSettings(fault) => settings_line(fault),
            Fault::NoArbiter => whole(b"fault NoArbiter\n"),
            Fault::BadSchedule { line, fault } => schedule_line(line, fault),
            Fault::NotAllowed { line, rule } => refused_line(line, rule),
            Fault::ReadFault => whole(b"fault ReadFault\n"),
            Fault::EnvFault => whole(b"fault EnvFault\n"),
            Fault::BadImage { sector } => numbered(b"fault BadImage sector ", u64::from(sector)),
            Fault::UnsafeTiming(timing) => timing_line(&timing),
            Fault::UnsafeLease(times) => lease_line(&times),
            Fault::NoMemory => whole(b"fault NoMemory\n"),
            Fault::ClockBack { before, now } => clock_line(before, now),
            Fault::SelfReset(message) => reset_line(message),
            Fault::BootHalted(cause) => numbered(b"fault BootHalted ", cause_number(cause)),
            Fault::DeadlyThere(held) => deadly_line(held),
            Fault::UnknownNode { id } => numbered(b"fault UnknownNode ", u64::from(id.0)),
            Fault::NotARun { line } => numbered(b"fault NotARun line ", line),
        }
    }

    /// Why a text gives no settings.
    pub(crate) fn of_text(fault: TextFault) -> Fault
        ensures { result ≡ text_fault fault }
    {
        match fault {
            TextFault::Conf(fault) => Fault::BadConf(fault),
            TextFault::Settings(fault) => Fault::BadSettings(fault),
        }
    }

    /// What a call on an image met, where it read sectors alone: one that is no spelling, or the disk.
    pub(crate) fn of_disk(fault: ImageFault) -> Fault
        ensures { result ≡ disk_fault fault }
    {
        match fault {
            ImageFault::NotImage => Fault::BadImage { sector: 0 },
            ImageFault::DamagedSector { sector } => Fault::BadImage { sector },
            ImageFault::Disk
            | ImageFault::UnsafeTiming
            | ImageFault::DeadlyThere(_)
            | ImageFault::UnknownNode => Fault::EnvFault,
        }
    }
}

/// The line of a fault of the settings text (corosync.conf(5)).
fn conf_line(fault: ConfFault) -> ShortText
    ensures { result ≡ conf_line fault }
{
    match fault {
        ConfFault::BadLine { line } => numbered(b"fault BadConf BadLine line ", line),
        ConfFault::Unclosed => whole(b"fault BadConf Unclosed\n"),
        ConfFault::ExtraClose { line } => numbered(b"fault BadConf ExtraClose line ", line),
        ConfFault::TooDeep { line } => numbered(b"fault BadConf TooDeep line ", line),
        ConfFault::NotText => whole(b"fault BadConf NotText\n"),
        ConfFault::TooLong => whole(b"fault BadConf TooLong\n"),
        ConfFault::NoMemory => whole(b"fault NoMemory\n"),
    }
}

/// The line of a fault of the settings (votequorum(5)).
fn settings_line(fault: SettingsFault) -> ShortText
    ensures { result ≡ settings_line fault }
{
    match fault {
        SettingsFault::WrongProvider => whole(b"fault BadConf WrongProvider\n"),
        SettingsFault::Unsupported { key } => keyed(b"fault BadConf Unsupported key ", key),
        SettingsFault::BadNumber { key } => keyed(b"fault BadConf BadNumber key ", key),
        SettingsFault::NoId { node } => numbered(b"fault BadConf NoId node ", node),
        SettingsFault::NoNodes => whole(b"fault BadConf NoNodes\n"),
        SettingsFault::TooManyNodes => whole(b"fault BadConf TooManyNodes\n"),
        SettingsFault::RepeatedId { id } => {
            numbered(b"fault BadConf RepeatedId id ", u64::from(id.0))
        }
        SettingsFault::NoVotes => whole(b"fault BadConf NoVotes\n"),
        SettingsFault::ExpectedZero => whole(b"fault BadConf ExpectedZero\n"),
        SettingsFault::TwoNodeCount => whole(b"fault BadConf TwoNodeCount\n"),
        SettingsFault::TwoNodeVotes => whole(b"fault BadConf TwoNodeVotes\n"),
        SettingsFault::TwoNodeDevice => whole(b"fault BadConf TwoNodeDevice\n"),
        SettingsFault::LmsVotes { id } => numbered(b"fault BadConf LmsVotes id ", u64::from(id.0)),
        SettingsFault::TieDevice => whole(b"fault BadConf TieDevice\n"),
        SettingsFault::TieTwoNode => whole(b"fault BadConf TieTwoNode\n"),
        SettingsFault::BadTieNode => whole(b"fault BadConf BadTieNode\n"),
    }
}

/// The line of a line of a schedule that is at fault.
fn schedule_line(line: u64, fault: LineFault) -> ShortText
    ensures { result ≡ schedule_line line fault }
{
    let mut text = ShortText::new();
    text.add(b"fault BadSchedule line ");
    text.add_number(line);
    text.add(b" ");
    text.add(fault.name().as_bytes());
    text.add(b"\n");
    text
}

/// The line of an event that a rule refuses.
fn refused_line(line: u64, rule: Rule) -> ShortText
    ensures { result ≡ refused_line line rule }
{
    let mut text = ShortText::new();
    text.add(b"fault NotAllowed line ");
    text.add_number(line);
    text.add(b" rule ");
    text.add_number(u64::from(rule.0));
    text.add(b"\n");
    text
}

/// The line of times that are not safe.
fn timing_line(timing: &Timing) -> ShortText
    ensures { result ≡ timing_line timing.now }
{
    let mut text = ShortText::new();
    text.add(b"fault UnsafeTiming ");
    text.add_number(timing.watchdog);
    text.add(b" ");
    text.add_number(timing.msgwait);
    text.add(b" ");
    text.add_number(timing.loop_ms);
    text.add(b" ");
    text.add_number(timing.read_limit);
    text.add(b" ");
    text.add_number(timing.feed_delay);
    text.add(b"\n");
    text
}

/// The line of two times of a lease that are not safe.
fn lease_line(times: &LeaseTimes) -> ShortText
    ensures { result ≡ lease_line times.now }
{
    let mut text = ShortText::new();
    text.add(b"fault UnsafeLease ");
    text.add_number(times.timeout);
    text.add(b" ");
    text.add_number(times.limit);
    text.add(b" ");
    text.add_number(times.lease);
    text.add(b"\n");
    text
}

/// The line of a clock that went back.
fn clock_line(before: u64, now: u64) -> ShortText
    ensures { result ≡ clock_line before now }
{
    let mut text = ShortText::new();
    text.add(b"fault ClockBack ");
    text.add_number(before);
    text.add(b" ");
    text.add_number(now);
    text.add(b"\n");
    text
}

/// The line of a deadly message that a running node read.
fn reset_line(message: Message) -> ShortText
    ensures { result ≡ reset_line message }
{
    let mut text = ShortText::new();
    text.add(b"fault SelfReset ");
    text.add(message.name().as_bytes());
    text.add(b"\n");
    text
}

/// The line of a deadly message that stands in the mailbox.
fn deadly_line(held: Message) -> ShortText
    ensures { result ≡ deadly_line held }
{
    let mut text = ShortText::new();
    text.add(b"fault DeadlyThere ");
    text.add(held.name().as_bytes());
    text.add(b"\n");
    text
}

/// A line that stands whole.
fn whole(line: &[u8]) -> ShortText
    requires { length line.now ≤ 100 }
    ensures { result ≡ line.now }
{
    let mut text = ShortText::new();
    text.add(line);
    text
}

/// A line that ends in a number.
fn numbered(front: &[u8], number: u64) -> ShortText
    requires { length front.now ≤ 100 }
    ensures { result ≡ front.now ++ decimal number ++ codes "\n" }
{
    let mut text = ShortText::new();
    text.add(front);
    text.add_number(number);
    text.add(b"\n");
    text
}

/// A line that ends in the name of a key.
fn keyed(front: &[u8], key: Key) -> ShortText
    requires { length front.now ≤ 100 }
    ensures { result ≡ front.now ++ key_name key ++ codes "\n" }
{
    let mut text = ShortText::new();
    text.add(front);
    add_key(&mut text, key);
    text.add(b"\n");
    text
}

/// Adds the name of a key at the end.
fn add_key(text: &mut ShortText, key: Key)
    requires { length text.old ≤ 100 }
    ensures text { text.new ≡ text.old ++ key_name key }
    ensures len { length text.new ≤ 124 }
{
    text.add(key.name().as_bytes());
}
