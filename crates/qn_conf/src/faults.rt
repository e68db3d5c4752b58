//! Why a text is no settings text.
ghost use Rattle.std.specs.Prelude.{◌≡◌};
ghost use Rattle.qn_conf.specs.declared.faults.ConfFault.TheVariants.{NoMemory};

use std::alloc::AllocFailed;
use thiserror::Error;

/// Why a text is no settings text. Lines are numbered from 1.
#[derive(Clone, Copy, PartialEq, Eq, Debug, Error)]
pub enum ConfFault {
    /// The line is none of the kinds of corosync.conf(5).
    #[error("line {line}: neither a section, nor `key: value`, nor `}}`, nor a comment")]
    BadLine { line: u64 },
    /// The text ends inside a section.
    #[error("the text ends inside a section: a `}}` is missing")]
    Unclosed,
    /// The line ends a section, and none is open.
    #[error("line {line}: `}}` ends a section, and none is open")]
    ExtraClose { line: u64 },
    /// The line begins a fifth section inside four others.
    #[error("line {line}: more than 4 sections stand inside one another")]
    TooDeep { line: u64 },
    /// The text is not UTF-8.
    #[error("the text is not UTF-8")]
    NotText,
    /// The text has more than 1,048,576 bytes.
    #[error("the text has more than 1048576 bytes")]
    TooLong,
    /// Out of memory.
    #[error("out of memory")]
    NoMemory,
}

impl<T: Drop> From<AllocFailed<T>> for ConfFault {
    ghost from_gives = { λ _ fault. fault ≡ NoMemory };

    fn from(_wanted: AllocFailed<T>) -> ConfFault {
        ConfFault::NoMemory
    }
}
