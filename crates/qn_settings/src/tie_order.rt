//! The order in which nodes break a tie (votequorum(5), `auto_tie_breaker_node`).
ghost use Rattle.std.specs.Prelude.{◌≡◌, ◌≤◌, ◌<◌, IfSome, length};
ghost use Rattle.qn_settings.specs.Entries.{entries_of};
ghost use Rattle.qn_settings.specs.TieOrder.{highest, listed, lowest, named, order_in, tie_of};

use crate::entries::Entries;
use crate::key::Key;
use crate::values::{flag, last_value};
use qn_base::{Rank, read_decimal};
use qn_conf::{Tree, is_blank};
use qn_model::{Nodes, Order};

/// The nodes in order of preference, where the breaker is on and its node is given in one of the three forms:
/// `lowest`, which also stands where none is written, `highest`, or ids of configured nodes, each once.
pub(crate) fn tie_order(tree: &Tree, nodes: &Nodes) -> Option<Order>
    requires { length nodes.now ≤ 32 }
    ensures { result ≡ tie_of nodes.now (entries_of tree.now) }
{
    if !flag(tree, Key::AutoTieBreaker) {
        return None;
    }
    match last_value(Entries::of(tree), Key::AutoTieBreakerNode) {
        Some(value) => order_in(nodes, value.bytes()),
        None => Some(lowest(nodes)),
    }
}

/// The order that a text says.
fn order_in(nodes: &Nodes, text: &[u8]) -> Option<Order>
    requires { length nodes.now ≤ 32 }
    ensures { result ≡ order_in nodes.now text.now }
{
    if text == b"lowest".as_slice() {
        Some(lowest(nodes))
    } else if text == b"highest".as_slice() {
        Some(highest(nodes))
    } else {
        listed(nodes, text)
    }
}

fn lowest(nodes: &Nodes) -> Order
    requires { length nodes.now ≤ 32 }
    ensures { result ≡ lowest nodes.now }
{
    let mut order = Order::new();
    for place in 0..nodes.len() {
        order.push(Rank(place as u8));
    }
    order
}

fn highest(nodes: &Nodes) -> Order
    requires { length nodes.now ≤ 32 }
    ensures { result ≡ highest nodes.now }
{
    let mut order = Order::new();
    for place in 0..nodes.len() {
        order.push(Rank((nodes.len() - 1 - place) as u8));
    }
    order
}

/// The nodes whose ids the text lists, separated by blanks.
fn listed(nodes: &Nodes, text: &[u8]) -> Option<Order>
    requires { length nodes.now ≤ 32 }
    ensures { result ≡ listed nodes.now text.now }
{
    let mut order = Order::new();
    for word in text.split(|byte| is_blank(*byte)) {
        if word.is_empty() {
            continue;
        }
        let rank = named(nodes, word)?;
        if order.as_slice().contains(&rank) {
            return None;
        }
        order.push(rank);
    }
    (!order.is_empty()).then_some(order)
}

/// The configured node of that id.
fn named(nodes: &Nodes, word: &[u8]) -> Option<Rank>
    ensures value { result ≡ named nodes.now word.now }
    ensures within { IfSome result (λ rank. rank.0 < length nodes.now) }
{
    nodes.rank_of(read_decimal(word)?)
}
