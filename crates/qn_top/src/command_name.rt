//! The first words of commands.
ghost use Rattle.std.specs.Prelude.{◌≡◌};
ghost use Rattle.qn_top.specs.Names.{command_word, name_of};

/// The name of a command.
#[derive(Clone, Copy)]
pub(crate) enum CommandName {
    Count,
    Replay,
    Status,
    Soak,
    Create,
    Dump,
    List,
    Message,
    Node,
    Migrate,
    Replay3,
    Node3,
    ReplayArbiter,
    NodeLogged,
    Audit,
    Node3Logged,
    Arbiter,
    Help,
}

/// The names of all commands, in the order of `help`.
const COMMAND_NAMES: [CommandName; 18] = [
    CommandName::Count,
    CommandName::Replay,
    CommandName::Status,
    CommandName::Soak,
    CommandName::Create,
    CommandName::Dump,
    CommandName::List,
    CommandName::Message,
    CommandName::Node,
    CommandName::Migrate,
    CommandName::Replay3,
    CommandName::Node3,
    CommandName::ReplayArbiter,
    CommandName::NodeLogged,
    CommandName::Audit,
    CommandName::Node3Logged,
    CommandName::Arbiter,
    CommandName::Help,
];

impl CommandName {
    /// The name as a word.
    fn word(self) -> &'static str
        ensures { result.now ≡ command_word self }
    {
        match self {
            CommandName::Count => "count",
            CommandName::Replay => "replay",
            CommandName::Status => "status",
            CommandName::Soak => "soak",
            CommandName::Create => "create",
            CommandName::Dump => "dump",
            CommandName::List => "list",
            CommandName::Message => "message",
            CommandName::Node => "node",
            CommandName::Migrate => "migrate",
            CommandName::Replay3 => "replay3",
            CommandName::Node3 => "node3",
            CommandName::ReplayArbiter => "replay-arbiter",
            CommandName::NodeLogged => "node-logged",
            CommandName::Audit => "audit",
            CommandName::Node3Logged => "node3-logged",
            CommandName::Arbiter => "arbiter",
            CommandName::Help => "help",
        }
    }
}

/// The name that a word is, or none.
#[tactic(auto, unfolding(crate::specs::Names::name_of))]
pub(crate) fn name_of(word: &[u8]) -> Option<CommandName>
    ensures { result ≡ name_of word.now }
{
    COMMAND_NAMES
        .iter()
        .copied()
        .find(|name| name.word().as_bytes() == word)
}
