//! The clocks that a pass of time names, each with its advance.
ghost use Rattle.std.specs.Prelude.{◌≡◌, ◌<◌, ◌≤◌, ◌==◌, [], ◌∷◌, ◌++◌, Some, length, slice_get};

use arrayvec::ArrayVec;
use qn_base::Rank;
use std::marker::Model;

/// The clocks that a pass names, each with its advance in hundredths of a millisecond, at most
/// 1000000000000: at most 32.
#[derive(Drop)]
pub struct Clocks {
    clocks: ArrayVec<(Rank, u64), 32>,
}

impl Model for Clocks {
    ghost use Rattle.std.specs.Prelude.{List, ℕ, ◌≤◌};
    ghost use Rattle.arrayvec.specs.ArrayVec.{array_vec_len};
    ghost use Rattle.qn_base.specs.declared.ids.Rank.{Rank};

    ghost Value = { List (Rank × ℕ) };

    ghost view = { λ c. c.clocks.items };

    ghost invariant = { λ c. array_vec_len c.clocks ≤ 32 };
}

impl Clocks {
    /// No clocks.
    pub fn new() -> Self
        ensures { result ≡ [] }
    {
        Clocks {
            clocks: ArrayVec::new(),
        }
    }

    /// How many clocks are named.
    pub fn len(&self) -> usize
        ensures value { result ≡ length self.now }
        ensures fits { result ≤ 32 }
    {
        self.clocks.len()
    }

    /// Whether no clock is named.
    pub fn is_empty(&self) -> bool
        ensures { result ≡ (length self.now == 0) }
    {
        self.clocks.is_empty()
    }

    /// Whether 32 clocks are named, so that no further one fits.
    pub fn is_full(&self) -> bool
        ensures { result ≡ (length self.now == 32) }
    {
        self.clocks.len() == 32
    }

    /// The clock of that place, from 0.
    pub fn get(&self, place: usize) -> (Rank, u64)
        requires { place < length self.now }
        ensures { slice_get self.now place ≡ Some result }
    {
        self.clocks[place]
    }

    /// Adds a clock after the others.
    pub fn push(&mut self, item: (Rank, u64))
        requires { length self.old < 32 }
        ensures { self.new ≡ self.old ++ item ∷ [] }
    {
        self.clocks.push(item);
    }

    /// Takes all clocks away.
    pub fn clear(&mut self)
        ensures { self.new ≡ [] }
    {
        self.clocks.clear();
    }

    /// An equal list.
    pub fn copy(&self) -> Self
        ensures { result ≡ self.now }
    {
        let mut clocks = ArrayVec::new();
        let _ = clocks.try_extend_from_slice(self.clocks.as_slice());
        Clocks { clocks }
    }

    /// The clocks in order.
    pub fn as_slice(&self) -> &[(Rank, u64)]
        ensures value { result.now ≡ self.now }
        ensures fits { length result.now ≤ 32 }
    {
        self.clocks.as_slice()
    }
}
