//! What the commands of an image write.
ghost use Rattle.std.specs.Prelude.{◌≡◌, ◌≤◌, ◌+◌, ◌++◌, length};
ghost use Rattle.qn_commands.specs.ImageTexts.{created_text, dump_text, list_line, migrated_text, sender_text, sent_text, times_text};

use qn_base::{NodeId, ShortText, yes_no};
use qn_model::{Mail, Message, Sender, Slot, Timing, timing_safe};

/// What `create` writes.
pub(crate) fn created_text(nodes: u64) -> ShortText
    ensures { result ≡ created_text nodes }
{
    let mut text = ShortText::new();
    text.add(b"created nodes ");
    text.add_number(nodes);
    text.add(b"\n");
    text
}

/// What `migrate` writes.
pub(crate) fn migrated_text(nodes: u32) -> ShortText
    ensures { result ≡ migrated_text nodes }
{
    let mut text = ShortText::new();
    text.add(b"migrated nodes ");
    text.add_number(u64::from(nodes));
    text.add(b"\n");
    text
}

/// What `dump` writes.
#[tactic(auto, unfolding(crate::specs::ImageTexts::dump_text))]
pub(crate) fn dump_text(version: u16, nodes: u32, timing: &Timing) -> ShortText
    ensures { result ≡ dump_text version nodes timing.now }
{
    let mut text = times_text(version, nodes, timing);
    text.add(b"\nsafe ");
    text.add(yes_no(timing_safe(timing)));
    text.add(b"\n");
    text
}

/// What `dump` writes of the version, the number of nodes and the times.
#[tactic(auto, unfolding(crate::specs::ImageTexts::times_text))]
fn times_text(version: u16, nodes: u32, timing: &Timing) -> ShortText
    ensures text { result ≡ times_text version nodes timing.now }
    ensures len { length result ≤ 220 }
{
    let mut text = ShortText::new();
    text.add(b"version ");
    text.add_number(u64::from(version));
    text.add(b"\nnodes ");
    text.add_number(u64::from(nodes));
    text.add(b"\nwatchdog ");
    text.add_number(timing.watchdog);
    text.add(b"\nmsgwait ");
    text.add_number(timing.msgwait);
    text.add(b"\nloop ");
    text.add_number(timing.loop_ms);
    text.add(b"\nread_limit ");
    text.add_number(timing.read_limit);
    text.add(b"\nfeed_delay ");
    text.add_number(timing.feed_delay);
    text
}

/// What `list` writes for a node.
#[tactic(auto, unfolding(crate::specs::ImageTexts::list_line))]
pub(crate) fn list_line(id: NodeId, slot: &Slot, mail: &Mail) -> ShortText
    ensures { result ≡ list_line (id, slot.now, mail.now) }
{
    let mut text = ShortText::new();
    text.add(b"node ");
    text.add_number(u64::from(id.0));
    text.add(b" incarnation ");
    text.add_number(slot.incarnation);
    text.add(if slot.clean {
        b" clean mail ".as_slice()
    } else {
        b" dirty mail ".as_slice()
    });
    text.add(mail.message.name().as_bytes());
    add_sender(&mut text, mail.by);
    text.add(b"\n");
    text
}

/// Adds who wrote a message, where somebody is named.
fn add_sender(text: &mut ShortText, by: Option<Sender>)
    requires { length text.old ≤ 150 }
    ensures text { text.new ≡ text.old ++ sender_text by }
    ensures len { length text.new ≤ 200 }
{
    if let Some(sender) = by {
        text.add(b" by ");
        text.add_number(u64::from(sender.id.0));
        text.add(b":");
        text.add_number(sender.incarnation);
    }
}

/// What `message` writes.
pub(crate) fn sent_text(kind: Message, id: NodeId) -> ShortText
    ensures { result ≡ sent_text kind id }
{
    let mut text = ShortText::new();
    text.add(b"sent ");
    text.add(kind.operator_word().as_bytes());
    text.add(b" to ");
    text.add_number(u64::from(id.0));
    text.add(b"\n");
    text
}
