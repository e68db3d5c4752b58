//! What happened, as a line of a journal names it: one name for whoever writes a line, and for whoever reads it.
ghost use Rattle.std.specs.Prelude.{◌≡◌};

/// What happened to a node, or to an arbiter (docs/dev/LIVE.md, "The journal").
#[derive(Clone, Copy, PartialEq, Eq)]
pub enum EventName {
    /// Its devices and sockets were opened, or one of them was not.
    Open,
    Phase,
    Claimed,
    View,
    Released,
    QuorumWon,
    QuorumLost,
    /// Another condition than before blocks a start.
    Why,
    FenceAsked,
    FenceWritten,
    Licence,
    StartAsked,
    StopAsked,
    Start,
    Stop,
    Disarm,
    HoldWon,
    HoldLost,
    Halt,
    Mail,
    MailDamaged,
    MailFailed,
    PeerSeen,
    PeerLost,
    NetworkLost,
    NetworkBack,
    ImageLost,
    ImageBack,
    /// The arbiter of the node answered.
    Device,
    DeviceSilent,
    /// What the host says of its node.
    Standing,
    StandingRefused,
    Feed,
    PacketsRefused,
    LinesDropped,
    End,
    /// An arbiter began.
    ArbiterOpen,
    /// An arbiter answered a node.
    Vote,
}

/// All of them.
const EVENT_NAMES: [EventName; 38] = [
    EventName::Open,
    EventName::Phase,
    EventName::Claimed,
    EventName::View,
    EventName::Released,
    EventName::QuorumWon,
    EventName::QuorumLost,
    EventName::Why,
    EventName::FenceAsked,
    EventName::FenceWritten,
    EventName::Licence,
    EventName::StartAsked,
    EventName::StopAsked,
    EventName::Start,
    EventName::Stop,
    EventName::Disarm,
    EventName::HoldWon,
    EventName::HoldLost,
    EventName::Halt,
    EventName::Mail,
    EventName::MailDamaged,
    EventName::MailFailed,
    EventName::PeerSeen,
    EventName::PeerLost,
    EventName::NetworkLost,
    EventName::NetworkBack,
    EventName::ImageLost,
    EventName::ImageBack,
    EventName::Device,
    EventName::DeviceSilent,
    EventName::Standing,
    EventName::StandingRefused,
    EventName::Feed,
    EventName::PacketsRefused,
    EventName::LinesDropped,
    EventName::End,
    EventName::ArbiterOpen,
    EventName::Vote,
];

impl EventName {
    ghost use Rattle.std.specs.Prelude.{◌≡◌};
    ghost use Rattle.qn_event.specs.EventNames.{event_named, event_word};

    /// Its word in a line.
    pub fn word(self) -> &'static str
        ensures { result.now ≡ event_word self }
    {
        match self {
            EventName::Open => "open",
            EventName::Phase => "phase",
            EventName::Claimed => "claimed",
            EventName::View => "view",
            EventName::Released => "released",
            EventName::QuorumWon => "quorum-won",
            EventName::QuorumLost => "quorum-lost",
            EventName::Why => "why",
            EventName::FenceAsked => "fence-asked",
            EventName::FenceWritten => "fence-written",
            EventName::Licence => "licence",
            EventName::StartAsked => "start-asked",
            EventName::StopAsked => "stop-asked",
            EventName::Start => "start",
            EventName::Stop => "stop",
            EventName::Disarm => "disarm",
            EventName::HoldWon => "hold-won",
            EventName::HoldLost => "hold-lost",
            EventName::Halt => "halt",
            EventName::Mail => "mail",
            EventName::MailDamaged => "mail-damaged",
            EventName::MailFailed => "mail-failed",
            EventName::PeerSeen => "peer-seen",
            EventName::PeerLost => "peer-lost",
            EventName::NetworkLost => "network-lost",
            EventName::NetworkBack => "network-back",
            EventName::ImageLost => "image-lost",
            EventName::ImageBack => "image-back",
            EventName::Device => "device",
            EventName::DeviceSilent => "device-silent",
            EventName::Standing => "standing",
            EventName::StandingRefused => "standing-refused",
            EventName::Feed => "feed",
            EventName::PacketsRefused => "packets-refused",
            EventName::LinesDropped => "lines-dropped",
            EventName::End => "end",
            EventName::ArbiterOpen => "arbiter-open",
            EventName::Vote => "vote",
        }
    }

    /// What happened by that word; None where no line has it.
    #[tactic(auto, unfolding(crate::specs::EventNames::event_named))]
    pub fn of_word(word: &str) -> Option<EventName>
        ensures { result ≡ event_named word.now }
    {
        EVENT_NAMES.iter().copied().find(|name| name.word() == word)
    }
}
