//! Slots and messages: what an image keeps of each node.

/// What a node's slot on the image says: its number of boots, and whether the last of them ended with a
/// clean stop (this project's profile).
#[derive(Clone, Copy, PartialEq, Eq, Debug)]
pub struct Slot {
    pub incarnation: u64,
    pub clean: bool,
}

/// What stands in a node's mailbox on the image (sbd(8), `message`; Empty is its `clear`).
#[derive(Clone, Copy, PartialEq, Eq, Default, Debug)]
pub enum Message {
    #[default]
    Empty,
    Test,
    Reset,
    Off,
    Exit,
    Crashdump,
}

impl Message {
    ghost use Rattle.std.specs.Prelude.{◌≡◌, ◌≤◌, IfSome, Some, length};
    ghost use Rattle.qn_model.specs.declared.disk.Message.{Message};
    ghost use Rattle.qn_model.specs.Messages.{message_name, operator_word};
    ghost use Rattle.qn_model.specs.Sectors.{is_deadly};

    /// Whether the node that reads the message is down afterwards: Reset, Off and Crashdump.
    pub fn is_deadly(self) -> bool
        ensures { result ≡ is_deadly self }
    {
        match self {
            Message::Reset | Message::Off | Message::Crashdump => true,
            Message::Empty | Message::Test | Message::Exit => false,
        }
    }

    /// The name of the message: `empty`, `test`, `reset`, `off`, `exit` or `crashdump`.
    pub fn name(self) -> &'static str
        ensures text { result.now ≡ message_name self }
        ensures len { length result.now ≤ 9 }
    {
        match self {
            Message::Empty => "empty",
            Message::Test => "test",
            Message::Reset => "reset",
            Message::Off => "off",
            Message::Exit => "exit",
            Message::Crashdump => "crashdump",
        }
    }

    /// The message of that name, where there is one.
    pub fn from_name(name: &str) -> Option<Message>
        ensures named { IfSome result (λ message. name.now ≡ message_name message) }
        ensures every { (message : Message) → name.now ≡ message_name message
            → result ≡ Some message }
    {
        match name {
            "empty" => Some(Message::Empty),
            "test" => Some(Message::Test),
            "reset" => Some(Message::Reset),
            "off" => Some(Message::Off),
            "exit" => Some(Message::Exit),
            "crashdump" => Some(Message::Crashdump),
            _ => None,
        }
    }

    /// The word by which an operator sends the message: `clear` for Empty, else its name.
    pub fn operator_word(self) -> &'static str
        ensures text { result.now ≡ operator_word self }
        ensures len { length result.now ≤ 9 }
    {
        match self {
            Message::Empty => "clear",
            named => named.name(),
        }
    }

    /// The message that an operator sends by that word, where there is one.
    pub fn from_operator_word(word: &str) -> Option<Message>
        ensures named { IfSome result (λ message. word.now ≡ operator_word message) }
        ensures every { (message : Message) → word.now ≡ operator_word message
            → result ≡ Some message }
    {
        match word {
            "clear" => Some(Message::Empty),
            "empty" => None,
            _ => Message::from_name(word),
        }
    }
}
