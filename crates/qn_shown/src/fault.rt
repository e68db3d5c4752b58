//! Why a text is none of a status file.
use std::fmt;

/// Why a text says nothing of a node.
#[derive(Clone, Copy, Drop)]
pub enum ShownFault {
    /// It is no JSON (RFC 8259).
    NotJson,
    /// A key of an object stands twice.
    Repeated,
    /// It is of this format, which is not known.
    Format(u64),
    /// This key is missing, or its value is of another type.
    Key(&'static str),
    /// Out of memory.
    NoMemory,
}

impl fmt::Display for ShownFault {
    fn fmt<W: fmt::Write>(&self, f: &mut fmt::Formatter<W>) -> fmt::Result {
        match self {
            ShownFault::NotJson => f.write_str("it is no JSON"),
            ShownFault::Repeated => f.write_str("a key stands twice"),
            ShownFault::Format(format) => write!(f, "format {format} is not known"),
            ShownFault::Key(key) => write!(f, "the key {key} is missing or of another type"),
            ShownFault::NoMemory => f.write_str("out of memory"),
        }
    }
}
