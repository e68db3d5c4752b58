//! The nodes in their order of preference where votes tie.
ghost use Rattle.std.specs.Prelude.{◌≡◌, ◌<◌, ◌≤◌, ◌==◌, [], ◌∷◌, ◌++◌, Some, length, slice_get};

use arrayvec::ArrayVec;
use qn_base::Rank;
use std::marker::Model;

/// Nodes in order of preference, by their ranks, at most 32: the first of them that is in the last view of a
/// majority breaks a tie (votequorum(5), `auto_tie_breaker_node`).
#[derive(Drop)]
pub struct Order {
    ranks: ArrayVec<Rank, 32>,
}

impl Model for Order {
    ghost use Rattle.std.specs.Prelude.{List, ◌≤◌};
    ghost use Rattle.arrayvec.specs.ArrayVec.{array_vec_len};
    ghost use Rattle.qn_base.specs.declared.ids.Rank.{Rank};

    ghost Value = { List Rank };

    ghost view = { λ o. o.ranks.items };

    ghost invariant = { λ o. array_vec_len o.ranks ≤ 32 };
}

impl Order {
    /// No nodes.
    pub fn new() -> Self
        ensures { result ≡ [] }
    {
        Order {
            ranks: ArrayVec::new(),
        }
    }

    /// How many nodes there are.
    pub fn len(&self) -> usize
        ensures value { result ≡ length self.now }
        ensures fits { result ≤ 32 }
    {
        self.ranks.len()
    }

    /// Whether there is no node.
    pub fn is_empty(&self) -> bool
        ensures { result ≡ (length self.now == 0) }
    {
        self.ranks.is_empty()
    }

    /// Whether 32 nodes are there, so that no further one fits.
    pub fn is_full(&self) -> bool
        ensures value { result ≡ (length self.now == 32) }
        ensures fits { length self.now ≤ 32 }
    {
        self.ranks.is_full()
    }

    /// The node of that place, from 0.
    pub fn get(&self, place: usize) -> Rank
        requires { place < length self.now }
        ensures { slice_get self.now place ≡ Some result }
    {
        self.ranks[place]
    }

    /// Adds a node after the others.
    pub fn push(&mut self, item: Rank)
        requires { length self.old < 32 }
        ensures { self.new ≡ self.old ++ item ∷ [] }
    {
        self.ranks.push(item);
    }

    /// Takes all nodes away.
    pub fn clear(&mut self)
        ensures { self.new ≡ [] }
    {
        self.ranks.clear();
    }

    /// An equal order.
    pub fn copy(&self) -> Self
        ensures { result ≡ self.now }
    {
        let mut ranks = ArrayVec::new();
        let _ = ranks.try_extend_from_slice(self.ranks.as_slice());
        Order { ranks }
    }

    /// The nodes in order.
    pub fn as_slice(&self) -> &[Rank]
        ensures value { result.now ≡ self.now }
        ensures fits { length result.now ≤ 32 }
    {
        self.ranks.as_slice()
    }
}
