//! The names of nodes.
use crate::pairs::{Pair, Place};
use qn_base::{NodeId, read_decimal};

/// The name of the node with this id: the last `name` of its section; None where it has none.
pub(crate) fn name_of<'text>(pairs: &[Pair<'text>], id: NodeId) -> Option<&'text str> {
    let place = pairs
        .iter()
        .find(|pair| is_id(pair, id))
        .map(|pair| pair.place)?;
    pairs
        .iter()
        .filter(|pair| pair.place == place && pair.key == "name")
        .last()
        .map(|pair| pair.value)
}

/// Whether a pair gives a node this id.
fn is_id(pair: &Pair<'_>, id: NodeId) -> bool {
    matches!(pair.place, Place::Node(_))
        && pair.key == "nodeid"
        && read_decimal(pair.value.as_bytes()) == Some(u64::from(id.0))
}
