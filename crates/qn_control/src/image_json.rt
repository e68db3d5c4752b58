//! What an image says, as JSON (RFC 8259). Names and findings have no characters that JSON escapes.
use crate::image::{ImageSeen, NodeSeen};
use crate::networks::NetworksSeen;
use crate::text::Text;
use qn_base::NodeId;
use qn_links::Links;
use qn_model::{Mail, Slot, Timing, timing_safe};
use std::alloc::{AllocError, Global};

/// One line: an array with an object for each node.
pub fn list_json(alloc: Global, nodes: &[NodeSeen]) -> Result<String, AllocError> {
    let mut json = Text::new(alloc);
    add_nodes(&mut json, nodes);
    json.add("\n");
    json.finish()
}

/// One line: an object with the header, the nodes and the findings, and the addresses of the nodes on each network where the text has two. Why these
/// are not known is the last of the findings.
pub fn check_json(
    alloc: Global,
    seen: &ImageSeen,
    networks: &NetworksSeen,
) -> Result<String, AllocError> {
    let mut json = Text::new(alloc);
    json.add("{\"findings\":[");
    add_findings(&mut json, seen, networks);
    json.add("],\"header\":");
    match &seen.header {
        Some((version, _, timing)) => add_header(&mut json, *version, timing),
        None => json.add("null"),
    }
    if let NetworksSeen::Two { first, second } = networks {
        json.add(",\"networks\":[");
        add_network(&mut json, first);
        json.add(",");
        add_network(&mut json, second);
        json.add("]");
    }
    json.add(",\"nodes\":");
    add_nodes(&mut json, seen.nodes.as_slice());
    json.add("}\n");
    json.finish()
}

/// The findings, as texts, and why the networks are not known.
fn add_findings(json: &mut Text, seen: &ImageSeen, networks: &NetworksSeen) {
    let mut before = "";
    for finding in seen.findings.as_slice() {
        json.add(before);
        json.add("\"");
        json.add_value(finding);
        json.add("\"");
        before = ",";
    }
    if let NetworksSeen::Unknown { reason } = networks {
        json.add(before);
        json.add_string(reason.as_str());
    }
}

/// The array of the addresses of a network, in the order of the ids.
fn add_network(json: &mut Text, links: &Links) {
    let mut before = "[";
    for link in links {
        if let Some(address) = link {
            json.add(before);
            json.add("\"");
            json.add_value(address);
            json.add("\"");
            before = ",";
        }
    }
    json.add(if links.iter().all(Option::is_none) {
        "[]"
    } else {
        "]"
    });
}

fn add_header(json: &mut Text, version: u16, timing: &Timing) {
    json.add_number("{\"feed_delay\":", timing.feed_delay);
    json.add_number(",\"loop\":", timing.loop_ms);
    json.add_number(",\"msgwait\":", timing.msgwait);
    json.add_number(",\"read_limit\":", timing.read_limit);
    json.add_truth(",\"safe\":", timing_safe(timing));
    json.add_number(",\"version\":", u64::from(version));
    json.add_number(",\"watchdog\":", timing.watchdog);
    json.add("}");
}

/// The array of these nodes.
pub(crate) fn add_nodes(json: &mut Text, nodes: &[NodeSeen]) {
    let mut before = "[";
    for node in nodes {
        json.add(before);
        add_node(json, node);
        before = ",";
    }
    json.add(if nodes.is_empty() { "[]" } else { "]" });
}

/// The object of a node; null stands for what cannot be read or is none.
fn add_node(json: &mut Text, node: &NodeSeen) {
    json.add("{\"mail\":");
    match &node.mail {
        Some(mail) => add_mail(json, mail),
        None => json.add("null"),
    }
    json.add(",\"slot\":");
    match &node.slot {
        Some((id, slot)) => add_slot(json, *id, slot),
        None => json.add("null"),
    }
    json.add("}");
}

fn add_slot(json: &mut Text, id: NodeId, slot: &Slot) {
    json.add_truth("{\"clean\":", slot.clean);
    json.add_number(",\"id\":", u64::from(id.0));
    json.add_number(",\"incarnation\":", slot.incarnation);
    json.add("}");
}

fn add_mail(json: &mut Text, mail: &Mail) {
    json.add("{\"by\":");
    match mail.by {
        Some(sender) => {
            json.add_number("{\"id\":", u64::from(sender.id.0));
            json.add_number(",\"incarnation\":", sender.incarnation);
            json.add("}");
        }
        None => json.add("null"),
    }
    json.add(",\"message\":\"");
    json.add(mail.message.name());
    json.add("\"}");
}
