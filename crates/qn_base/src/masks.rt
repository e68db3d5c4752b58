//! Sets of ranks: who is in one, both of two, one without another, the first member.
ghost use Rattle.std.specs.Prelude.{◌≡◌, ◌<◌, ◌==◌, ◌&&◌, ◌||◌, ℕ, not, true, false, IfSome, IfNone};
ghost use Rattle.qn_base.specs.Members.{is_member};

use crate::ids::{Mask, Rank};

impl Mask {
    /// Whether the rank is one of the members. A rank of 32 or more is none.
    pub fn has(self, rank: Rank) -> bool
        ensures { result ≡ is_member self rank.0 }
    {
        rank.0 < 32 && self.contains(rank)
    }

    /// The members, and this rank too. A rank that is no rank of a mask, 32 or more, changes nothing.
    pub fn with(self, rank: Rank) -> Mask
        ensures { (j : ℕ) → j < 32 → is_member result j ≡ (rank.0 == j || is_member self j) }
    {
        if rank.0 < 32 {
            Mask(self.0 | 1 << rank.0)
        } else {
            self
        }
    }

    /// The members of both masks.
    pub fn both(self, other: Mask) -> Mask
        ensures { (j : ℕ) → is_member result j ≡ (is_member self j && is_member other j) }
    {
        Mask(self.0 & other.0)
    }

    /// The members that the other mask has not.
    pub fn without(self, other: Mask) -> Mask
        ensures { (j : ℕ) → is_member result j ≡ (is_member self j && not (is_member other j)) }
    {
        Mask(self.0 ^ (self.0 & other.0))
    }

    /// The ranks that are no members.
    pub fn outside(self) -> Mask
        ensures { (j : ℕ) → j < 32 → is_member result j ≡ not (is_member self j) }
    {
        Mask(!self.0)
    }

    /// The least member among the first `count` ranks.
    pub fn first(self, count: u8) -> Option<Rank>
        ensures within { IfSome result (λ rank. rank.0 < count) }
        ensures below { IfSome result (λ rank. rank.0 < 32) }
        ensures member { IfSome result (λ rank. is_member self rank.0 ≡ true) }
        ensures least { IfSome result (λ rank. (j : ℕ) → j < rank.0 → is_member self j ≡ false) }
        ensures none { IfNone result ((j : ℕ) → j < count → is_member self j ≡ false) }
    {
        let least = self.0.trailing_zeros() as u8;
        if self.0 > 0 && least < count {
            Some(Rank(least))
        } else {
            None
        }
    }
}
