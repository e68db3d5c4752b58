//! The nodes that a tree gives, in ascending id, or their first fault.
ghost use Rattle.std.specs.Prelude.{◌≡◌, ◌<◌, ◌≤◌, None, Some, length, IfSome, MatchResult, nat_lt, position};
ghost use Rattle.arrayvec.specs.ArrayVec.{array_vec_len};
ghost use Rattle.qn_model.specs.Settings.{all_votes};
ghost use Rattle.qn_settings.specs.Entries.{entries_of};
ghost use Rattle.qn_settings.specs.Nodes.{begins_with_id, node_faults, node_of, nodes_of, no_id, own_entries, put_by_id, repeated_in, sections};
ghost use Rattle.qn_settings.specs.Values.{first_some, number};

use crate::entries::Entries;
use crate::faults::SettingsFault;
use crate::key::Key;
use crate::values::last_own_value;
use arrayvec::ArrayVec;
use qn_base::NodeId;
use qn_conf::Tree;
use qn_model::{NodeEntry, Nodes};

/// The most nodes that can be configured.
const MAX_NODES: usize = 32;

/// The nodes in ascending id, or their first fault.
pub(crate) fn read_nodes(tree: &Tree) -> Result<Nodes, SettingsFault>
    ensures { MatchResult result
        (λ nodes. (first_some (node_faults (entries_of tree.now)) ≡ None)
        × (nodes ≡ nodes_of (entries_of tree.now)))
        (λ fault. first_some (node_faults (entries_of tree.now)) ≡ Some fault) }
{
    let count = count_nodes(tree)?;
    if count == 0 {
        return Err(SettingsFault::NoNodes);
    }
    if count > MAX_NODES as u64 {
        return Err(SettingsFault::TooManyNodes);
    }
    let nodes = collect_nodes(tree);
    if let Some(id) = repeated_id(nodes.as_slice()) {
        return Err(SettingsFault::RepeatedId { id });
    }
    if all_votes(nodes.as_slice()) == 0 {
        return Err(SettingsFault::NoVotes);
    }
    Ok(nodes)
}

/// How many node sections there are, where each has an id.
fn count_nodes(tree: &Tree) -> Result<u64, SettingsFault>
    ensures { MatchResult result
        (λ count. (no_id (entries_of tree.now) ≡ None)
        × (count ≡ length (sections (entries_of tree.now))))
        (λ fault. no_id (entries_of tree.now) ≡ Some fault) }
{
    let mut entries = Entries::of(tree);
    let mut node = 0;
    while entries.skip_to_node() {
        node += 1;
        if last_own_value(entries.copy(), Key::NodeId).is_none() {
            return Err(SettingsFault::NoId { node });
        }
    }
    Ok(node)
}

/// The nodes in ascending id.
fn collect_nodes(tree: &Tree) -> Nodes
    requires { length (sections (entries_of tree.now)) ≤ 32 }
    ensures { result ≡ nodes_of (entries_of tree.now) }
{
    let mut nodes = ArrayVec::new();
    let mut entries = Entries::of(tree);
    while entries.skip_to_node() {
        put_by_id(&mut nodes, node_of(&entries));
    }
    nodes_in(nodes.as_slice())
}

/// The node of the section that stands first.
fn node_of(entries: &Entries) -> NodeEntry
    ensures { result ≡ node_of (own_entries entries.now) }
{
    NodeEntry {
        id: NodeId(own_number(entries, Key::NodeId).unwrap_or(0) as u32),
        votes: own_number(entries, Key::QuorumVotes).unwrap_or(1) as u32,
        fence_delay: own_number(entries, Key::FenceDelay).unwrap_or(0),
    }
}

/// The number of a key in the section that stands first, where it is written.
fn own_number(entries: &Entries, key: Key) -> Option<u64>
    ensures value { result ≡ number key (own_entries entries.now) }
    ensures fits { IfSome result (λ n. n ≤ 4294967295) }
{
    key.number(last_own_value(entries.copy(), key)?.bytes())
}

/// Puts a node before the first of a greater id.
fn put_by_id(nodes: &mut ArrayVec<NodeEntry, 32>, node: NodeEntry)
    requires { array_vec_len nodes.old < 32 }
    ensures { nodes.new.items ≡ put_by_id nodes.old.items node }
{
    let place = first_above(nodes.as_slice(), node.id).unwrap_or(nodes.len());
    nodes.insert(place, node);
}

/// The first node of a greater id.
fn first_above(nodes: &[NodeEntry], id: NodeId) -> Option<usize>
    ensures place { result ≡ position (λ other. nat_lt id.0 other.id.0) nodes.now }
    ensures within { IfSome result (λ place. place < length nodes.now) }
{
    nodes.iter().position(|other| id.0 < other.id.0)
}

fn nodes_in(entries: &[NodeEntry]) -> Nodes
    requires { length entries.now ≤ 32 }
    ensures { result ≡ entries.now }
{
    let mut nodes = Nodes::new();
    for entry in entries {
        nodes.push(*entry);
    }
    nodes
}

/// The least id that two nodes have, of nodes in ascending id.
fn repeated_id(nodes: &[NodeEntry]) -> Option<NodeId>
    ensures { result ≡ repeated_in nodes.now }
{
    let mut rest = nodes;
    while let [node, others @ ..] = rest {
        if begins_with_id(node.id, others) {
            return Some(node.id);
        }
        rest = others;
    }
    None
}

fn begins_with_id(id: NodeId, nodes: &[NodeEntry]) -> bool
    ensures { result ≡ begins_with_id id nodes.now }
{
    match nodes {
        [] => false,
        [node, ..] => id.0 == node.id.0,
    }
}

/// The votes of all nodes together.
pub(crate) fn all_votes(nodes: &[NodeEntry]) -> u64
    requires { length nodes.now ≤ 32 }
    ensures { result ≡ all_votes nodes.now }
{
    let mut total = 0;
    for node in nodes {
        total += u64::from(node.votes);
    }
    total
}
