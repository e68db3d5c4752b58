//! The lists of a status file: the ids of a view, and the other nodes.
ghost use Rattle.std.specs.Prelude.{◌≡◌, codes, option_and_then, option_map};
ghost use Rattle.json.specs.Find.{get};
ghost use Rattle.json.specs.Value.{items_view, value_view};
ghost use Rattle.qn_shown.specs.Kinds.{id_in};
ghost use Rattle.qn_shown.specs.Reading.{all_in, few, heard_of, ids_in, peer_in, peers_in, told_in};

use crate::fault::ShownFault;
use crate::keys::{text_if_there, whole_if_there, whole_or_null};
use crate::kinds;
use crate::shown::{Heard, Peer, Told};
use arrayvec::ArrayVec;
use json::Value;
use qn_base::NodeId;

/// The ids of at most 32 nodes.
pub(crate) fn ids(json: &Value<'_>) -> Option<ArrayVec<NodeId, 32>>
    ensures { option_map (λ ids. ids.items) result ≡ ids_in (value_view json.now) }
{
    match json {
        Value::Array(items) => ids_of(items.as_slice()),
        _ => None,
    }
}

fn ids_of(items: &[Value<'_>]) -> Option<ArrayVec<NodeId, 32>>
    ensures { option_map (λ ids. ids.items) result
        ≡ option_and_then few (all_in id_in (items_view items.now)) }
{
    let mut ids = ArrayVec::new();
    'items: for item in items {
        let id = kinds::id(item)?;
        if ids.is_full() {
            return None;
        }
        ids.push(id);
    }
    Some(ids)
}

/// At most 32 other nodes.
pub(crate) fn peers(json: &Value<'_>) -> Option<ArrayVec<Peer, 32>>
    ensures { option_map (λ peers. peers.items) result ≡ peers_in (value_view json.now) }
{
    match json {
        Value::Array(items) => peers_of(items.as_slice()),
        _ => None,
    }
}

fn peers_of(items: &[Value<'_>]) -> Option<ArrayVec<Peer, 32>>
    ensures { option_map (λ peers. peers.items) result
        ≡ option_and_then few (all_in peer_in (items_view items.now)) }
{
    let mut peers = ArrayVec::new();
    'items: for item in items {
        let peer = peer(item)?;
        if peers.is_full() {
            return None;
        }
        peers.push(peer);
    }
    Some(peers)
}

/// Another node.
fn peer(json: &Value<'_>) -> Option<Peer>
    ensures { result ≡ peer_in (value_view json.now) }
{
    Some(Peer {
        hello_tick: whole_or_null(json, "hello_tick").ok()?,
        id: kinds::id(json.get("id")?)?,
        name: text_if_there(json, "name", 63).ok()?,
        network_down: whole_if_there(json, "network_down").ok()?,
        refused: whole_if_there(json, "refused").ok()?,
        told: heard(json)?,
    })
}

/// What was heard of what a node tells: the key may be absent.
fn heard(json: &Value<'_>) -> Option<Heard>
    ensures { result ≡ heard_of (get (codes "told") (value_view json.now)) }
{
    match json.get("told") {
        None => Some(Heard::Unsaid),
        Some(value) if value.is_null() => Some(Heard::Nothing),
        Some(value) => told(value),
    }
}

/// What a node told.
fn told(json: &Value<'_>) -> Option<Heard>
    ensures { result ≡ told_in (value_view json.now) }
{
    let told = Told {
        group: kinds::told_group(json.get("group")?)?,
        held_ms: kinds::whole(json.get("held_ms")?)?,
        holds: json.get("holds")?.as_bool()?,
        incarnation: kinds::whole(json.get("incarnation")?)?,
        leaving: json.get("leaving")?.as_bool()?,
        quorate: json.get("quorate")?.as_bool()?,
    };
    let tick = kinds::whole(json.get("tick")?)?;
    Some(Heard::Said(told, tick))
}
