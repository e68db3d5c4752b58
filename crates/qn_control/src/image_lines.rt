//! What an image says, in lines.
use crate::cluster::ClusterStatus;
use crate::image::{ImageSeen, NodeSeen};
use crate::text::Text;
use std::alloc::{AllocError, Global};

/// A line for each node, as `quorumd list` writes it; a question mark stands for a slot or a mailbox that cannot be read or is none.
pub fn node_lines(alloc: Global, nodes: &[NodeSeen]) -> Result<String, AllocError> {
    let mut text = Text::new(alloc);
    for node in nodes {
        text.add("node ");
        add_slot(&mut text, node);
        text.add(" mail ");
        add_mail(&mut text, node);
        text.add("\n");
    }
    text.finish()
}

/// A line for each node of an image that is looked at beside status files.
pub fn image_lines_beside(
    alloc: Global,
    seen: &ImageSeen,
    cluster: &ClusterStatus,
) -> Result<String, AllocError> {
    let mut text = Text::new(alloc);
    for node in seen.nodes.as_slice() {
        add_beside(&mut text, node, cluster);
    }
    text.finish()
}

/// The line of a node: its slot and its mailbox, and that it has no status file where it has none.
fn add_beside(text: &mut Text, node: &NodeSeen, cluster: &ClusterStatus) {
    match &node.slot {
        Some((id, slot)) => {
            text.add_number("node ", u64::from(id.0));
            let has_file = cluster
                .nodes
                .as_slice()
                .iter()
                .any(|file| file.id.0 == id.0);
            text.add(if has_file {
                " slot "
            } else {
                " no file; slot "
            });
            text.add(if slot.clean { "clean" } else { "dirty" });
            text.add_number(", incarnation ", slot.incarnation);
        }
        None => text.add("node ? slot ?"),
    }
    text.add(", mail ");
    add_mail(text, node);
    text.add("\n");
}

/// A line for each thing that is wrong with an image.
pub fn finding_lines(alloc: Global, seen: &ImageSeen) -> Result<String, AllocError> {
    let mut text = Text::new(alloc);
    for finding in seen.findings.as_slice() {
        text.add("warning: ");
        text.add_value(finding);
        text.add("\n");
    }
    text.finish()
}

fn add_slot(text: &mut Text, node: &NodeSeen) {
    match &node.slot {
        Some((id, slot)) => {
            text.add_number("", u64::from(id.0));
            text.add_number(" incarnation ", slot.incarnation);
            text.add(if slot.clean { " clean" } else { " dirty" });
        }
        None => text.add("?"),
    }
}

fn add_mail(text: &mut Text, node: &NodeSeen) {
    match &node.mail {
        Some(mail) => {
            text.add(mail.message.name());
            if let Some(sender) = mail.by {
                text.add_number(" by ", u64::from(sender.id.0));
                text.add_number(":", sender.incarnation);
            }
        }
        None => text.add("?"),
    }
}
