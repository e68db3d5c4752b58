//! The first words of the lines of events.
ghost use Rattle.std.specs.Prelude.{◌≡◌};
ghost use Rattle.qn_sched.specs.EventNames.{event_at, event_name, event_word, node_event_word};

use qn_base::Rank;
use qn_model::Event;

/// What the first word of an event's line says.
#[derive(Clone, Copy, PartialEq, Eq)]
pub(crate) enum EventName {
    Pass,
    Boot,
    BootClean,
    Late,
    View,
    Deliver,
    Device,
    Operator,
    /// An event of which the line says the node alone.
    OfNode(NodeEvent),
}

/// An event of which the line says the node alone.
#[derive(Clone, Copy, PartialEq, Eq)]
pub(crate) enum NodeEvent {
    Crash,
    Land,
    Done,
    Fail,
    Tick,
    Stopped,
    Unstopped,
    Leave,
    Feed,
}

/// The names of all events.
const EVENT_NAMES: [EventName; 17] = [
    EventName::Pass,
    EventName::Boot,
    EventName::BootClean,
    EventName::OfNode(NodeEvent::Crash),
    EventName::OfNode(NodeEvent::Land),
    EventName::OfNode(NodeEvent::Done),
    EventName::OfNode(NodeEvent::Fail),
    EventName::OfNode(NodeEvent::Tick),
    EventName::OfNode(NodeEvent::Stopped),
    EventName::OfNode(NodeEvent::Unstopped),
    EventName::OfNode(NodeEvent::Leave),
    EventName::OfNode(NodeEvent::Feed),
    EventName::Late,
    EventName::View,
    EventName::Deliver,
    EventName::Device,
    EventName::Operator,
];

impl NodeEvent {
    /// The first word of its line.
    pub(crate) fn word(self) -> &'static str
        ensures { result.now ≡ node_event_word self }
    {
        match self {
            NodeEvent::Crash => "crash",
            NodeEvent::Land => "land",
            NodeEvent::Done => "done",
            NodeEvent::Fail => "fail",
            NodeEvent::Tick => "tick",
            NodeEvent::Stopped => "stopped",
            NodeEvent::Unstopped => "unstopped",
            NodeEvent::Leave => "leave",
            NodeEvent::Feed => "feed",
        }
    }

    /// The event at the node of that rank.
    pub(crate) fn at(self, rank: Rank) -> Event
        ensures { result ≡ event_at self rank }
    {
        match self {
            NodeEvent::Crash => Event::Crash(rank),
            NodeEvent::Land => Event::Land(rank),
            NodeEvent::Done => Event::Done(rank),
            NodeEvent::Fail => Event::Fail(rank),
            NodeEvent::Tick => Event::Tick(rank),
            NodeEvent::Stopped => Event::Stopped(rank),
            NodeEvent::Unstopped => Event::Unstopped(rank),
            NodeEvent::Leave => Event::Leave(rank),
            NodeEvent::Feed => Event::Feed(rank),
        }
    }
}

impl EventName {
    /// The first word of its line.
    pub(crate) fn word(self) -> &'static str
        ensures { result.now ≡ event_word self }
    {
        match self {
            EventName::Pass => "pass",
            EventName::Boot => "boot",
            EventName::BootClean => "boot-clean",
            EventName::Late => "late",
            EventName::View => "view",
            EventName::Deliver => "deliver",
            EventName::Device => "device",
            EventName::Operator => "operator",
            EventName::OfNode(event) => event.word(),
        }
    }
}

/// The name that a first word is, or none.
#[inline(always)]
#[tactic(auto, unfolding(crate::specs::EventNames::event_name))]
pub(crate) fn event_name(word: &[u8]) -> Option<EventName>
    ensures { result ≡ event_name word.now }
{
    match word {
        b"pass" => Some(EventName::Pass),
        b"boot" => Some(EventName::Boot),
        b"boot-clean" => Some(EventName::BootClean),
        b"crash" => Some(EventName::OfNode(NodeEvent::Crash)),
        b"land" => Some(EventName::OfNode(NodeEvent::Land)),
        b"done" => Some(EventName::OfNode(NodeEvent::Done)),
        b"fail" => Some(EventName::OfNode(NodeEvent::Fail)),
        b"tick" => Some(EventName::OfNode(NodeEvent::Tick)),
        b"stopped" => Some(EventName::OfNode(NodeEvent::Stopped)),
        b"unstopped" => Some(EventName::OfNode(NodeEvent::Unstopped)),
        b"leave" => Some(EventName::OfNode(NodeEvent::Leave)),
        b"feed" => Some(EventName::OfNode(NodeEvent::Feed)),
        b"late" => Some(EventName::Late),
        b"view" => Some(EventName::View),
        b"deliver" => Some(EventName::Deliver),
        b"device" => Some(EventName::Device),
        b"operator" => Some(EventName::Operator),
        _ => found_name(word),
    }
}

/// The same, name by name: a word that is none ends what is read.
#[tactic(auto, unfolding(crate::specs::EventNames::event_name))]
fn found_name(word: &[u8]) -> Option<EventName>
    ensures { result ≡ event_name word.now }
{
    EVENT_NAMES
        .iter()
        .copied()
        .find(|name| name.word().as_bytes() == word)
}
