//! What a settings text says of the nodes and the quorum, in bytes.
ghost use Rattle.std.specs.Prelude.{◌≡◌, ◌+◌, ◌*◌, ◌≤◌, ◌++◌, length, option_map};
ghost use Rattle.qn_links.specs.Meaning.{address_bytes, device_bytes, flag_byte, arbiter_bytes, ids_bytes, meaning, node_bytes, nodes_bytes, rest_bytes, tie_bytes};

use crate::arbiter::ArbiterPlace;
use crate::links::Links;
use arrayvec::ArrayVec;
use qn_base::{Rank, add, add_u16, add_u32, add_u64};
use qn_model::{Device, NodeEntry, Nodes, Order, Settings};
use std::net::IpAddr;

/// How many bytes the meaning of a settings text has at most.
pub const MEANING: usize = 1280;

/// The meaning of a settings text, while it is put together.
pub type Meaning = ArrayVec<u8, MEANING>;

/// Empties the bytes, and writes what the settings say, with these addresses of their nodes and this place of their arbiter.
#[tactic(auto, unfolding(crate::specs::Meaning::meaning))]
pub fn meaning_of(
    settings: &Settings,
    links: &Links,
    arbiter: Option<ArbiterPlace>,
    into: &mut Meaning,
)
    ensures { into.new.items ≡ meaning settings.now links.now arbiter }
{
    into.clear();
    add(into, b"QNTEXT01");
    add(into, &[settings.nodes.len() as u8]);
    add_nodes(settings.nodes.as_slice(), links, into);
    add_rest(settings, arbiter, into);
}

/// Adds the nodes in the order of their ranks.
fn add_nodes(nodes: &[NodeEntry], links: &Links, into: &mut Meaning)
    requires few { length nodes.now ≤ 32 }
    requires room { length into.old.items ≤ 9 }
    ensures value { into.new.items ≡ into.old.items ++ nodes_bytes nodes.now links.now }
    ensures length { length into.new.items ≡ length into.old.items + 33 * length nodes.now }
{
    for rank in 0..nodes.len() {
        add_node(nodes[rank], links[rank], into);
    }
}

/// Adds a node and its address.
#[tactic(auto, unfolding(crate::specs::Meaning::node_bytes))]
fn add_node(node: NodeEntry, address: Option<IpAddr>, into: &mut Meaning)
    requires { length into.old.items + 33 ≤ 1280 }
    ensures value { into.new.items ≡ into.old.items ++ node_bytes node address }
    ensures length { length into.new.items ≡ length into.old.items + 33 }
{
    add_u32(into, node.id.0);
    add_u32(into, node.votes);
    add_u64(into, node.fence_delay);
    add_address(address, into);
}

/// Adds an address.
fn add_address(address: Option<IpAddr>, into: &mut Meaning)
    requires { length into.old.items + 17 ≤ 1280 }
    ensures value { into.new.items ≡ into.old.items ++ address_bytes address }
    ensures length { length into.new.items ≡ length into.old.items + 17 }
{
    match address {
        None => add(into, &[0; 17]),
        Some(IpAddr::V4(address)) => {
            add(into, &[4]);
            add(into, &[0; 12]);
            add(into, &address.octets());
        }
        Some(IpAddr::V6(address)) => {
            add(into, &[6]);
            add(into, &address.octets());
        }
    }
}

/// Adds what stands behind the nodes.
#[tactic(auto, unfolding(crate::specs::Meaning::rest_bytes))]
fn add_rest(settings: &Settings, arbiter: Option<ArbiterPlace>, into: &mut Meaning)
    requires { length into.old.items ≤ 1065 }
    ensures { into.new.items ≡ into.old.items ++ rest_bytes settings.now arbiter }
{
    let two_node = flag(settings.two_node);
    let wait_for_all = flag(settings.wait_for_all);
    let last_man_standing = flag(settings.last_man_standing);
    add(into, &[two_node, wait_for_all, last_man_standing]);
    add_u64(into, settings.window);
    add_u64(into, settings.expected);
    add_device(settings.device, arbiter, into);
    add_tie(&settings.nodes, settings.tie.as_ref(), into);
}

/// The byte of a flag.
fn flag(flag: bool) -> u8
    ensures { result ≡ flag_byte flag }
{
    if flag { 1 } else { 0 }
}

/// Adds the device, and where its arbiter is.
fn add_device(device: Option<Device>, arbiter: Option<ArbiterPlace>, into: &mut Meaning)
    requires { length into.old.items + 33 ≤ 1280 }
    ensures value { into.new.items ≡ into.old.items ++ device_bytes device arbiter }
    ensures length { length into.new.items ≤ length into.old.items + 33 }
{
    match device {
        None => add(into, &[0]),
        Some(device) => {
            add(into, &[1]);
            add_u32(into, device.votes);
            add_u64(into, device.timeout);
            add_arbiter(arbiter, into);
        }
    }
}

/// Adds where an arbiter is.
fn add_arbiter(arbiter: Option<ArbiterPlace>, into: &mut Meaning)
    requires { length into.old.items + 20 ≤ 1280 }
    ensures value { into.new.items ≡ into.old.items ++ arbiter_bytes arbiter }
    ensures length { length into.new.items ≤ length into.old.items + 20 }
{
    match arbiter {
        None => add(into, &[0]),
        Some(arbiter) => {
            add(into, &[1]);
            add_address(Some(arbiter.address), into);
            add_u16(into, arbiter.port.unwrap_or(0));
        }
    }
}

/// Adds the order of preference where votes tie.
fn add_tie(nodes: &Nodes, tie: Option<&Order>, into: &mut Meaning)
    requires { length into.old.items + 130 ≤ 1280 }
    ensures { into.new.items ≡ into.old.items ++ tie_bytes nodes.now
        (option_map (λ order. order.now) tie.entry) }
{
    match tie {
        None => add(into, &[0]),
        Some(order) => {
            add(into, &[1, order.len() as u8]);
            add_ids(nodes, order.as_slice(), into);
        }
    }
}

/// Adds the ids of the nodes of these ranks.
fn add_ids(nodes: &Nodes, ranks: &[Rank], into: &mut Meaning)
    requires few { length ranks.now ≤ 32 }
    requires room { length into.old.items + 128 ≤ 1280 }
    ensures { into.new.items ≡ into.old.items ++ ids_bytes nodes.now ranks.now }
{
    for rank in ranks {
        add_u32(into, nodes.id_of(*rank).0);
    }
}
