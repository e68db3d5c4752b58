//! The status of a cluster, as JSON (RFC 8259), with the keys in alphabetical order.
use crate::cluster::{ClusterStatus, UnreadFile};
use crate::image::ImageSeen;
use crate::image_json::add_nodes as add_nodes_of_image;
use crate::text::Text;
use qn_names::phase_name;
use qn_shown::{Arbiter, Candidate, Group, Heard, HostStanding, Peer, Shown, ShownView};
use qn_verdict::is_stale;
use std::alloc::{AllocError, Global};

/// One line: an object with the slots and the mailboxes of an image, where one is looked at; the nodes and the files that are none; the
/// reason of the verdict; and its word.
pub fn cluster_json(
    alloc: Global,
    cluster: &ClusterStatus,
    image: Option<&ImageSeen>,
) -> Result<String, AllocError> {
    let reason = cluster.reason(alloc)?;
    let mut json = Text::new(alloc);
    json.add("{");
    if let Some(image) = image {
        json.add("\"image\":");
        add_nodes_of_image(&mut json, image.nodes.as_slice());
        json.add(",");
    }
    json.add("\"nodes\":");
    add_nodes(&mut json, cluster);
    json.add(",\"said\":");
    json.add_string(reason.as_str());
    json.add(",\"state\":");
    json.add_string(cluster.verdict().name());
    json.add("}\n");
    json.finish()
}

/// The array of the nodes, and of the files that are none behind them.
fn add_nodes(json: &mut Text, cluster: &ClusterStatus) {
    let mut separator = "";
    json.add("[");
    for node in cluster.nodes.as_slice() {
        json.add(separator);
        add_node(json, cluster, node);
        separator = ",";
    }
    for file in cluster.unread.as_slice() {
        json.add(separator);
        add_unread(json, file);
        separator = ",";
    }
    json.add("]");
}

fn add_unread(json: &mut Text, file: &UnreadFile) {
    json.add("{\"error\":");
    json.add_string(file.why.as_str());
    json.add(",\"id\":null,\"path\":");
    json.add_string(file.path.as_str());
    json.add(",\"stale\":true}");
}

fn add_node(json: &mut Text, cluster: &ClusterStatus, node: &Shown) {
    json.add_number("{\"age\":", cluster.age(node));
    if let Some(arbiter) = &node.arbiter {
        add_arbiter(json, arbiter);
    }
    json.add_number(",\"dropped\":", node.counts.dropped);
    json.add(",\"end\":");
    match &node.end {
        Some(end) => json.add_string(end.as_str()),
        None => json.add("null"),
    }
    json.add_number(",\"expected\":", node.answer.expected);
    json.add(",\"format\":1");
    add_group(json, node.group);
    if let Some(held_ms) = node.held_ms {
        json.add_number(",\"held_ms\":", held_ms);
    }
    json.add_truth(",\"holds\":", node.holds);
    json.add_number(",\"id\":", u64::from(node.id.0));
    if let Some(images) = node.images {
        json.add_number(",\"images\":", images);
    }
    json.add_number_or_null(",\"incarnation\":", node.incarnation);
    json.add_number(",\"late\":", node.counts.late);
    json.add_number(",\"loop\":", u64::from(node.loop_ms));
    add_mail(json, node);
    if let Some(name) = &node.name {
        json.add(",\"name\":");
        json.add_string(name.as_str());
    }
    json.add(",\"peers\":");
    add_peers(json, node.peers.as_slice());
    json.add(",\"phase\":");
    json.add_string(phase_name(node.phase));
    add_votes(json, node);
    json.add_truth(",\"stale\":", is_stale(cluster.now, node));
    if let Some(standing) = node.standing {
        add_standing(json, standing);
    }
    add_rest(json, node);
}

/// What the node heard of the arbiter of its quorum device.
fn add_arbiter(json: &mut Text, arbiter: &Arbiter) {
    json.add(",\"arbiter\":{\"address\":");
    match &arbiter.address {
        Some(address) => json.add_string(address.as_str()),
        None => json.add("null"),
    }
    json.add_number(",\"age\":", arbiter.age_ms);
    json.add(",\"answer\":");
    json.add_string(arbiter.answer.name());
    json.add_number(",\"no\":", arbiter.no);
    json.add_number(",\"polls\":", arbiter.polls);
    json.add_number(",\"refused\":", arbiter.refused);
    json.add_number(",\"yes\":", arbiter.yes);
    json.add("}");
}

/// What the host of the node says of it.
fn add_standing(json: &mut Text, standing: HostStanding) {
    json.add_truth(",\"standing\":{\"fit\":", standing.fit);
    json.add_truth(",\"pull\":", standing.pull);
    json.add_truth(",\"standby\":", standing.standby);
    json.add_number(",\"weight\":", u64::from(standing.weight));
    json.add("}");
}

/// The keys from `mail` on.
fn add_mail(json: &mut Text, node: &Shown) {
    json.add(",\"mail\":");
    json.add_string(node.mailbox.state.name());
    let sender = node.mailbox.by.map(|id| u64::from(id.0));
    json.add_number_or_null(",\"mail_by\":", sender);
    json.add_number_or_null(",\"mail_tick\":", node.mailbox.tick);
}

fn add_peers(json: &mut Text, peers: &[Peer]) {
    let mut separator = "";
    json.add("[");
    for peer in peers {
        json.add(separator);
        json.add_number_or_null("{\"hello_tick\":", peer.hello_tick);
        json.add_number(",\"id\":", u64::from(peer.id.0));
        if let Some(name) = &peer.name {
            json.add(",\"name\":");
            json.add_string(name.as_str());
        }
        if let Some(network) = peer.network_down {
            json.add_number(",\"network_down\":", network);
        }
        if let Some(refused) = peer.refused {
            json.add_number(",\"refused\":", refused);
        }
        add_heard(json, peer.told);
        json.add("}");
        separator = ",";
    }
    json.add("]");
}

/// What a node told last, and when that came.
fn add_heard(json: &mut Text, heard: Heard) {
    let (told, tick) = match heard {
        Heard::Unsaid => return,
        Heard::Nothing => return json.add(",\"told\":null"),
        Heard::Said(told, tick) => (told, tick),
    };
    json.add_number(",\"told\":{\"group\":", u64::from(told.group.number()));
    json.add_number(",\"held_ms\":", told.held_ms);
    json.add_truth(",\"holds\":", told.holds);
    json.add_number(",\"incarnation\":", told.incarnation);
    json.add_truth(",\"leaving\":", told.leaving);
    json.add_truth(",\"quorate\":", told.quorate);
    json.add_number(",\"tick\":", tick);
    json.add("}");
}

/// How the group is: nothing where there is none, null where nothing looks after it.
fn add_group(json: &mut Text, group: Group) {
    match group {
        Group::NoGroup => {}
        Group::Unattended => json.add(",\"group\":null"),
        Group::Down
        | Group::Looking
        | Group::Starting
        | Group::Runs
        | Group::Unsure
        | Group::Stopping
        | Group::Failed
        | Group::Stuck
        | Group::Maintenance => json.add_number(",\"group\":", u64::from(group.number())),
    }
}

/// The keys from `pid` to `released`.
fn add_votes(json: &mut Text, node: &Shown) {
    json.add_number(",\"pid\":", node.pid);
    json.add_truth(",\"quorate\":", node.answer.quorate);
    json.add_number(",\"quorum\":", node.answer.quorum);
    json.add_number(",\"refused\":", node.counts.refused);
    json.add_truth(",\"released\":", node.answer.released);
}

/// The keys from `tick` on, and the end of the object.
fn add_rest(json: &mut Text, node: &Shown) {
    json.add_number(",\"tick\":", node.tick);
    json.add(",\"time\":");
    json.add_thousandths(node.time_ms);
    json.add_number(",\"unwritten\":", node.counts.unwritten);
    json.add(",\"view\":");
    match &node.view {
        Some(view) => add_view(json, view),
        None => json.add("null"),
    }
    json.add_number(",\"votes\":", node.answer.votes);
    json.add(",\"why\":");
    json.add_string(node.why.as_str());
    json.add("}");
}

fn add_view(json: &mut Text, view: &ShownView) {
    json.add(match view.candidate {
        Candidate::Unsaid => "{",
        Candidate::Unnamed => "{\"candidate\":null,",
        Candidate::Nobody => "{\"candidate\":0,",
        Candidate::Named(_) => "{\"candidate\":",
    });
    if let Candidate::Named(id) = view.candidate {
        json.add_number("", u64::from(id.0));
        json.add(",");
    }
    json.add_number("\"id\":", view.id);
    json.add(",\"members\":[");
    let mut separator = "";
    for member in view.members.as_slice() {
        json.add_number(separator, u64::from(member.0));
        separator = ",";
    }
    json.add("]}");
}
