//! The configured nodes in ascending id, each with its votes.
ghost use Rattle.std.specs.Prelude.{◌≡◌, ◌<◌, ◌==◌, length, position, IfSome};

use arrayvec::ArrayVec;
use qn_base::{Mask, NodeId, Rank};
use std::marker::Model;

/// A configured node with its votes (corosync.conf(5), `nodelist`, `node`, `nodeid` and `quorum_votes`), and
/// how many milliseconds after the last view it may be reset (this project's profile).
#[derive(Clone, Copy, PartialEq, Eq, Default)]
pub struct NodeEntry {
    pub id: NodeId,
    pub votes: u32,
    pub fence_delay: u64,
}

/// The configured nodes, at most 32. The rank of a node is its place in the list.
#[derive(Drop)]
pub struct Nodes {
    entries: ArrayVec<NodeEntry, 32>,
}

impl Model for Nodes {
    ghost use Rattle.std.specs.Prelude.{List, ◌≤◌};
    ghost use Rattle.arrayvec.specs.ArrayVec.{array_vec_len};
    ghost use Rattle.qn_model.specs.declared.nodelist.NodeEntry.{NodeEntry};

    ghost Value = { List NodeEntry };

    ghost view = { λ n. n.entries.items };

    ghost invariant = { λ n. array_vec_len n.entries ≤ 32 };
}

impl Nodes {
    ghost use Rattle.std.specs.Prelude.{
      ◌≡◌,
      ◌<◌,
      ◌≤◌,
      ◌==◌,
      ◌*◌,
      [],
      ◌∷◌,
      ◌++◌,
      Some,
      None,
      IfSome,
      IfNone,
      length,
      position,
      slice_get,
      slice_index,
    };
    ghost use Rattle.qn_model.specs.Settings.{ids};
    ghost use Rattle.qn_model.specs.Unmet.{id_from};
    ghost use Rattle.qn_model.specs.Votes.{are_all_in, votes_among};

    /// No nodes.
    pub fn new() -> Self
        ensures { result ≡ [] }
    {
        Nodes {
            entries: ArrayVec::new(),
        }
    }

    /// How many nodes there are.
    pub fn len(&self) -> usize
        ensures value { result ≡ length self.now }
        ensures fits { result ≤ 32 }
    {
        self.entries.len()
    }

    /// Whether there is no node.
    pub fn is_empty(&self) -> bool
        ensures { result ≡ (length self.now == 0) }
    {
        self.entries.is_empty()
    }

    /// Whether 32 nodes are there, so that no further one fits.
    pub fn is_full(&self) -> bool
        ensures value { result ≡ (length self.now == 32) }
        ensures fits { length self.now ≤ 32 }
    {
        self.entries.is_full()
    }

    /// The node of that rank.
    pub fn get(&self, place: usize) -> NodeEntry
        requires { place < length self.now }
        ensures { slice_get self.now place ≡ Some result }
    {
        self.entries[place]
    }

    /// The id of the node of that rank, 0 where there is none.
    pub fn id_of(&self, rank: Rank) -> NodeId
        ensures id { result ≡ id_from self.now rank.0 }
        ensures number { result.0 ≡ slice_index (ids self.now) rank.0 }
        ensures few { rank.0 < length self.now → rank.0 < 32 }
    {
        let place = usize::from(rank.0);
        if place < self.len() {
            self.get(place).id
        } else {
            NodeId(0)
        }
    }

    /// The rank of the node with this number as its id.
    pub fn rank_of(&self, id: u64) -> Option<Rank>
        ensures named { IfSome result
            (λ rank. position (λ node. node.id.0 == id) self.now ≡ Some rank.0) }
        ensures unnamed { IfNone result (position (λ node. node.id.0 == id) self.now ≡ None) }
        ensures within { IfSome result (λ rank. (rank.0 < length self.now) × (rank.0 < 32)) }
    {
        let place = place_in(self.as_slice(), id)?;
        Some(Rank(place as u8))
    }

    /// Adds a node after the others.
    pub fn push(&mut self, item: NodeEntry)
        requires { length self.old < 32 }
        ensures { self.new ≡ self.old ++ item ∷ [] }
    {
        self.entries.push(item);
    }

    /// Takes all nodes away.
    pub fn clear(&mut self)
        ensures { self.new ≡ [] }
    {
        self.entries.clear();
    }

    /// An equal list.
    pub fn copy(&self) -> Self
        ensures { result ≡ self.now }
    {
        let mut entries = ArrayVec::new();
        let _ = entries.try_extend_from_slice(self.entries.as_slice());
        Nodes { entries }
    }

    /// The nodes in order.
    pub fn as_slice(&self) -> &[NodeEntry]
        ensures value { result.now ≡ self.now }
        ensures fits { length result.now ≤ 32 }
    {
        self.entries.as_slice()
    }

    /// The plain sum of the votes of these members (votequorum(5), "OVERVIEW").
    pub fn votes_among(&self, members: Mask) -> u64
        ensures sum { result ≡ votes_among self.now members }
        ensures fits { result ≤ 32 * 4294967295 }
    {
        let count = self.len() as u8;
        let mut total = 0u64;
        let mut rest = members;
        'members: while let Some(rank) = rest.first(count) {
            total += u64::from(self.get(usize::from(rank.0)).votes);
            rest = rest.without(Mask(0).with(rank));
        }
        total
    }

    /// Whether every node is one of these members.
    pub fn are_all_in(&self, members: Mask) -> bool
        ensures { result ≡ are_all_in self.now members }
    {
        for rank in 0..self.len() {
            if !members.contains(Rank(rank as u8)) {
                return false;
            }
        }
        true
    }
}

fn place_in(nodes: &[NodeEntry], id: u64) -> Option<usize>
    ensures value { result ≡ position (λ node. node.id.0 == id) nodes.now }
    ensures within { IfSome result (λ place. place < length nodes.now) }
{
    nodes.iter().position(|node| u64::from(node.id.0) == id)
}
