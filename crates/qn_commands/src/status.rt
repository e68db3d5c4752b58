//! The exit statuses.
ghost use Rattle.std.specs.Prelude.{◌≡◌};
ghost use Rattle.qn_commands.specs.Statuses.{code_of};

/// How the program ends.
#[derive(Clone, Copy, PartialEq, Eq)]
pub enum Status {
    /// The command did its whole work.
    Done,
    /// The words are no command.
    Usage,
    /// The settings text has a fault.
    BadConf,
    /// A line of the input is at fault.
    BadSchedule,
    /// An event is refused by a rule of the world.
    NotAllowed,
    /// The input could not be read.
    ReadFault,
    /// The output could not be written.
    WriteFault,
    /// The image could not be opened, read or written, or a running node not be opened.
    EnvFault,
    /// A sector of the image is no spelling.
    BadImage,
    /// The times are not safe.
    UnsafeTiming,
    /// Out of memory.
    NoMemory,
    /// The clock of a running node went back.
    ClockBack,
    /// A running node read a deadly message.
    SelfReset,
    /// A step of the boot of a running node halted it.
    BootHalted,
    /// A test or an exit was not to replace a deadly message.
    DeadlyThere,
    /// No node has the id.
    UnknownNode,
    /// The two times of a lease are not safe.
    UnsafeLease,
    /// A log is no run of a node.
    NotARun,
}

impl Status {
    /// The exit status.
    pub fn code(self) -> u8
        ensures { result ≡ code_of self }
    {
        match self {
            Status::Done => 0,
            Status::Usage => 2,
            Status::BadConf => 3,
            Status::BadSchedule => 4,
            Status::NotAllowed => 5,
            Status::ReadFault => 6,
            Status::WriteFault => 7,
            Status::EnvFault => 8,
            Status::BadImage => 9,
            Status::UnsafeTiming => 10,
            Status::NoMemory => 11,
            Status::ClockBack => 12,
            Status::SelfReset => 13,
            Status::BootHalted => 14,
            Status::DeadlyThere => 15,
            Status::UnknownNode => 16,
            Status::UnsafeLease => 17,
            Status::NotARun => 18,
        }
    }
}
