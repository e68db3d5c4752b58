//! What a node's mailbox on the image holds: a message, and who wrote it.
use crate::disk::Message;
use qn_base::NodeId;

/// Who wrote a message: a node, and the incarnation in which it wrote (this project's profile).
#[derive(Clone, Copy, PartialEq, Eq)]
pub struct Sender {
    /// 1 or more.
    pub id: NodeId,
    pub incarnation: u64,
}

/// What a mailbox holds. `by` is None where nobody is named: an operator's message, and the Empty of a node
/// that cleared its own mailbox.
#[derive(Clone, Copy, PartialEq, Eq)]
pub struct Mail {
    pub message: Message,
    pub by: Option<Sender>,
}

impl Mail {
    ghost use Rattle.std.specs.Prelude.{◌≡◌};
    ghost use Rattle.qn_model.specs.Sectors.{anonymous};

    /// The message, with nobody named.
    pub fn anonymous(message: Message) -> Mail
        ensures { result ≡ anonymous message }
    {
        Mail { message, by: None }
    }
}
