//! What can be wrong with a line of a schedule or of the input of `count`.
ghost use Rattle.std.specs.Prelude.{◌≡◌};
ghost use Rattle.qn_model.specs.Lines.{name_of};

/// What is wrong with a line of a schedule or of the input of `count`. Where several apply, the first in
/// the order TooLong, Unended, TooMany, UnknownWord, BadCount is meant, and then the fault of the first
/// word that has one.
#[derive(Clone, Copy, PartialEq, Eq)]
pub enum LineFault {
    /// The first word names no line, or a later word is none of those that may stand there.
    UnknownWord,
    /// The number of words is not that of the line.
    BadCount,
    /// A word is no number, or is out of range.
    BadNumber,
    /// The id is not one of the nodes.
    UnknownNode,
    /// A list of members is empty, has an empty part or does not ascend strictly.
    BadView,
    /// More than 4096 bytes of the line were read.
    TooLong,
    /// The input ended inside the line, or where it was due.
    Unended,
    /// One line, or one node, more than there may be.
    TooMany,
    /// The id stands in an earlier `node` line.
    RepeatedNode,
}

impl LineFault {
    /// The name, as a fault line prints it.
    pub fn name(self) -> &'static str
        ensures { result.now ≡ name_of self }
    {
        match self {
            LineFault::UnknownWord => "UnknownWord",
            LineFault::BadCount => "BadCount",
            LineFault::BadNumber => "BadNumber",
            LineFault::UnknownNode => "UnknownNode",
            LineFault::BadView => "BadView",
            LineFault::TooLong => "TooLong",
            LineFault::Unended => "Unended",
            LineFault::TooMany => "TooMany",
            LineFault::RepeatedNode => "RepeatedNode",
        }
    }
}
