//! The sum of the votes of a view's members, and its chosen node.
ghost use Rattle.std.specs.Prelude.{◌≡◌, ◌≤◌, ◌<◌, ◌&&◌, ℕ, ◌*◌, true, false, IfSome, IfNone};
ghost use Rattle.qn_base.specs.Candidates.{is_barred, is_named};
ghost use Rattle.qn_base.specs.Members.{is_member, votes_of};

use crate::ids::{Mask, Rank, View};

/// The plain sum of the votes of the members, where `votes[r]` are the votes of rank `r`
/// (votequorum(5), "OVERVIEW").
pub fn votes(votes: &[u32; 32], members: Mask) -> u64
    ensures sum { result ≡ votes_of votes.now members }
    ensures fits { result ≤ 32 * 4294967295 }
{
    let mut total = 0u64;
    for (rank, count) in votes.iter().enumerate() {
        if members.contains(Rank(rank as u8)) {
            total += u64::from(*count);
        }
    }
    total
}

impl View {
    /// Whether the view names a rank by its number.
    pub fn names(self, rank: Rank) -> bool
        ensures { result ≡ is_named self rank.0 }
    {
        self.id >> 56 == u64::from(rank.0) + 1
    }

    /// Whether the view says that none of its members may start.
    pub fn is_barred(self) -> bool
        ensures { result ≡ is_barred self }
    {
        self.id >> 56 == 254
    }

    /// The member that the view names by its number, among the first `count` ranks.
    pub fn named(self, count: u8) -> Option<Rank>
        ensures within { IfSome result (λ rank. rank.0 < count) }
        ensures member { IfSome result (λ rank. (is_member self.members rank.0 && is_named self rank.0) ≡ true) }
        ensures least { IfSome result (λ rank. (j : ℕ) → j < rank.0 → (is_member self.members j && is_named self j) ≡ false) }
        ensures none { IfNone result ((j : ℕ) → j < count → (is_member self.members j && is_named self j) ≡ false) }
    {
        let name = self.id >> 56;
        if name > 0 && name <= u64::from(count) && self.members.has(Rank((name - 1) as u8)) {
            Some(Rank((name - 1) as u8))
        } else {
            None
        }
    }
}

/// The chosen node of a view: its member of least rank, and so of least id (this project's profile).
pub fn chosen(view: View) -> Rank
    requires { 0 < view.members.0 }
    ensures within { result.0 < 32 }
    ensures member { is_member view.members result.0 ≡ true }
    ensures least { (rank : ℕ) → rank < result.0 → is_member view.members rank ≡ false }
{
    Rank(view.members.0.trailing_zeros() as u8)
}
