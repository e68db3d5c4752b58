//! The status of a cluster, as a table.
use crate::cluster::{ClusterStatus, add_refused, silence_of};
use crate::text::Text;
use qn_names::phase_name;
use qn_shown::Shown;
use qn_verdict::{is_answered, is_stale, members, miss_time};
use std::alloc::{AllocError, Global};

/// The verdict in one line, a line for each node, one for its arbiter and for each peer that it misses, and one for each file that is none.
pub fn cluster_text(alloc: Global, cluster: &ClusterStatus) -> Result<String, AllocError> {
    let line = cluster.line(alloc)?;
    let mut text = Text::new(alloc);
    text.add("quorumd ");
    text.add(line.as_str());
    text.add("\n node phase    holds quorate votes  view           mail         age  why\n");
    for node in cluster.nodes.as_slice() {
        add_node(&mut text, cluster, node);
        add_arbiter(&mut text, node);
        add_missed(&mut text, node);
    }
    for file in cluster.unread.as_slice() {
        text.add("    ? ");
        text.add_foreign(file.path.as_str());
        text.add(": ");
        text.add_foreign(file.why.as_str());
        text.add("\n");
    }
    text.finish()
}

/// The line of a node. Of one that says nothing of now `holds` is not known.
fn add_node(text: &mut Text, cluster: &ClusterStatus, node: &Shown) {
    let is_stale = is_stale(cluster.now, node);
    text.add_right(u64::from(node.id.0));
    let phase = text.column();
    text.add(match &node.end {
        Some(_) => "ended",
        None if is_stale => "silent",
        None => phase_name(node.phase),
    });
    text.fill(phase, 9);
    let holds = text.column();
    text.add(if is_stale { "?" } else { answer(node.holds) });
    text.fill(holds, 6);
    let quorate = text.column();
    text.add(answer(node.answer.quorate));
    text.fill(quorate, 8);
    let votes = text.column();
    text.add_number("", node.answer.votes);
    text.add_number("/", node.answer.quorum);
    text.fill(votes, 7);
    add_view(text, node);
    let mail = text.column();
    text.add(node.mailbox.state.name());
    text.fill(mail, 10);
    text.add_seconds_right(cluster.age(node));
    text.add("s  ");
    text.add_foreign(node.why.as_str());
    text.add("\n");
}

fn answer(is_so: bool) -> &'static str {
    if is_so { "yes" } else { "no" }
}

/// The view: its number and its members.
fn add_view(text: &mut Text, node: &Shown) {
    let column = text.column();
    match &node.view {
        Some(view) => {
            text.add_number("", view.id);
            text.add(":");
            add_members(text, node);
        }
        None => text.add("-"),
    }
    text.fill(column, 15);
}

fn add_members(text: &mut Text, node: &Shown) {
    let mut separator = "";
    for member in members(node) {
        text.add_number(separator, u64::from(member.0));
        separator = ",";
    }
}

/// A line for what the arbiter of the node's quorum device answers, and how long ago it answered last.
fn add_arbiter(text: &mut Text, node: &Shown) {
    let Some(arbiter) = &node.arbiter else {
        return;
    };
    text.add("      device ");
    if let Some(address) = &arbiter.address {
        text.add_foreign(address.as_str());
        text.add(" ");
    }
    text.add("answers ");
    text.add(arbiter.answer.name());
    text.add(", ");
    text.add_seconds(arbiter.age_ms);
    text.add(" s ago");
    if !is_answered(node, arbiter) {
        add_refused(text, arbiter.refused);
    }
    text.add("\n");
}

/// A line for each peer that the node never heard, or not for three loops.
fn add_missed(text: &mut Text, node: &Shown) {
    for peer in node.peers.as_slice() {
        let silence = silence_of(node, peer);
        let is_missed = match silence {
            Some(silence) => silence > miss_time(node),
            None => true,
        };
        if is_missed {
            text.add_number("      peer ", u64::from(peer.id.0));
            if let Some(name) = &peer.name {
                text.add(" (");
                text.add_foreign(name.as_str());
                text.add(")");
            }
            match silence {
                Some(silence) => {
                    text.add(" last heard ");
                    text.add_seconds(silence);
                    text.add(" s ago\n");
                }
                None => text.add(" never heard\n"),
            }
        }
    }
}
