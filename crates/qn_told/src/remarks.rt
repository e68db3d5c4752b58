//! What is told besides the events of entries: of nodes that are heard, of the mailbox, of feeds, packets, and the end.
ghost use Rattle.std.specs.Prelude.{◌≡◌};
ghost use Rattle.qn_told.specs.Remarks.{device_answered, device_silent, ended, feeds_failed, image_back, image_lost, mail_damaged, mail_failed, mail_told, network_back, network_lost, packets_refused, peer_lost, peer_seen, sender_words};
ghost use Rattle.qn_event.specs.WholeLines.{with_words};

use qn_base::NodeId;
use qn_event::{EventLine, EventName, Level, Moment};
use qn_model::{Mail, Sender};

/// That a node is heard which was not.
pub fn peer_seen(at: Moment, id: NodeId) -> EventLine
    ensures { result ≡ peer_seen at id }
{
    let mut line = EventLine::new(at, Level::Information, EventName::PeerSeen);
    line.number(b"id", u64::from(id.0));
    line
}

/// That a node was not heard for so many milliseconds.
pub fn peer_lost(at: Moment, id: NodeId, silent: u64) -> EventLine
    ensures { result ≡ peer_lost at id silent }
{
    let mut line = EventLine::new(at, Level::Warning, EventName::PeerLost);
    line.number(b"id", u64::from(id.0));
    line.number(b"silent", silent);
    line
}

/// That for three loops nothing came of a node over the network of that number, while something came over the other one.
pub fn network_lost(at: Moment, network: u64, id: NodeId) -> EventLine
    ensures { result ≡ network_lost at network id }
{
    let mut line = EventLine::new(at, Level::Warning, EventName::NetworkLost);
    line.number(b"network", network);
    line.number(b"id", u64::from(id.0));
    line
}

/// That something came of a node over a network that was lost to it.
pub fn network_back(at: Moment, network: u64, id: NodeId) -> EventLine
    ensures { result ≡ network_back at network id }
{
    let mut line = EventLine::new(at, Level::Notice, EventName::NetworkBack);
    line.number(b"network", network);
    line.number(b"id", u64::from(id.0));
    line
}

/// That the arbiter of the node answered in the view of that number.
pub fn device_answered(at: Moment, agrees: bool, view: u64) -> EventLine
    ensures { result ≡ device_answered at agrees view }
{
    let mut line = EventLine::new(at, Level::Notice, EventName::Device);
    line.truth(b"answer", agrees);
    line.number(b"view", view);
    line
}

/// That the arbiter of the node answered nothing for so many milliseconds.
pub fn device_silent(at: Moment, age: u64) -> EventLine
    ensures { result ≡ device_silent at age }
{
    let mut line = EventLine::new(at, Level::Warning, EventName::DeviceSilent);
    line.number(b"age", age);
    line
}

/// That the last call on the image of that number failed.
pub fn image_lost(at: Moment, image: u64) -> EventLine
    ensures { result ≡ image_lost at image }
{
    let mut line = EventLine::new(at, Level::Warning, EventName::ImageLost);
    line.number(b"image", image);
    line
}

/// That a call on that image was done again.
pub fn image_back(at: Moment, image: u64) -> EventLine
    ensures { result ≡ image_back at image }
{
    let mut line = EventLine::new(at, Level::Notice, EventName::ImageBack);
    line.number(b"image", image);
    line
}

/// That the mailbox holds another message: which, and whose.
pub fn mail_told(at: Moment, mail: Mail) -> EventLine
    ensures { result ≡ mail_told at mail }
{
    let level = if mail.message.is_deadly() {
        Level::Error
    } else {
        Level::Notice
    };
    let mut line = EventLine::new(at, level, EventName::Mail);
    let name = mail.message.name().as_bytes();
    line.word(b"message", name, name.len());
    add_sender(&mut line, mail.by);
    line
}

/// Adds who wrote a message: a node in one of its incarnations, or an operator.
fn add_sender(line: &mut EventLine, by: Option<Sender>)
    ensures head { line.new.head ≡ line.old.head }
    ensures level { line.new.level ≡ line.old.level }
    ensures words { line.new.words ≡ with_words line.old.words (sender_words by) }
{
    match by {
        Some(sender) => {
            line.number(b"by", u64::from(sender.id.0));
            line.number(b"by-incarnation", sender.incarnation);
        }
        None => line.word(b"by", b"operator", 8),
    }
}

/// That the sector of the mailbox is none.
pub fn mail_damaged(at: Moment) -> EventLine
    ensures { result ≡ mail_damaged at }
{
    EventLine::new(at, Level::Error, EventName::MailDamaged)
}

/// That the mailbox could not be read.
pub fn mail_failed(at: Moment) -> EventLine
    ensures { result ≡ mail_failed at }
{
    EventLine::new(at, Level::Error, EventName::MailFailed)
}

/// That so many feeds failed or came too late.
pub fn feeds_failed(at: Moment, count: u64) -> EventLine
    ensures { result ≡ feeds_failed at count }
{
    let mut line = EventLine::new(at, Level::Error, EventName::Feed);
    line.truth(b"ok", false);
    line.number(b"count", count);
    line
}

/// That so many packets were none.
pub fn packets_refused(at: Moment, count: u64) -> EventLine
    ensures { result ≡ packets_refused at count }
{
    let mut line = EventLine::new(at, Level::Warning, EventName::PacketsRefused);
    line.number(b"count", count);
    line
}

/// That the run ended, by that line, and whether that is a fault.
pub fn ended(at: Moment, end: &[u8], is_fault: bool) -> EventLine
    ensures { result ≡ ended at end.now is_fault }
{
    let level = if is_fault {
        Level::Error
    } else {
        Level::Notice
    };
    let mut line = EventLine::new(at, level, EventName::End);
    line.quoted(b"end", end);
    line
}
