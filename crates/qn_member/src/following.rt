//! Who is visible, who is able to lead, and whom the node follows.
use crate::member::Member;
use qn_base::{Mask, Rank};

impl Member {
    ghost use Rattle.std.specs.Prelude.{◌≡◌, ◌<◌, IfSome, true};
    ghost use Rattle.std.specs.Option.{option_map};
    ghost use Rattle.qn_member.specs.Maker.{able_nodes, followed, follows_lost, follows_of, forgotten_nodes, has_configured, is_able, is_forgotten, is_upper, is_visible, leader_of, may_lead, names, says_able, upper_nodes, visible_nodes};
    ghost use Rattle.qn_member.specs.Naming.{follows_follower, follows_this, is_follower_since, is_heard_since};

    /// Whether the last Hello of a node names this one.
    fn names(&self, rank: Rank) -> bool
        requires { rank.0 < 32 }
        ensures { result ≡ names self.now rank.0 }
    {
        match self.said[usize::from(rank.0)] {
            Some(said) => said.hears.has(self.me),
            None => false,
        }
    }

    fn is_visible(&self, tick: u64, rank: Rank) -> bool
        requires { rank.0 < 32 }
        ensures { result ≡ is_visible tick self.now rank.0 }
    {
        rank == self.me || self.is_heard(tick, rank) && self.names(rank)
    }

    /// The nodes that are heard and hear this one.
    pub(crate) fn visible_nodes(&self, tick: u64) -> Mask
        ensures exact { result ≡ visible_nodes tick self.now }
        ensures configured { has_configured self.now.nodes result ≡ true }
    {
        let mut found = Mask(0);
        for rank in 0..self.count() {
            if self.is_visible(tick, Rank(rank)) {
                found = found.with(Rank(rank));
            }
        }
        found
    }

    fn is_upper(&self, visible: Mask, rank: Rank) -> bool
        requires { rank.0 < 32 }
        ensures { result ≡ is_upper self.now visible rank.0 }
    {
        visible.has(rank) && self.me.0 <= rank.0
    }

    /// The visible nodes from the own rank on.
    fn upper_nodes(&self, visible: Mask) -> Mask
        ensures exact { result ≡ upper_nodes self.now visible }
        ensures configured { has_configured self.now.nodes result ≡ true }
    {
        let mut found = Mask(0);
        for rank in 0..self.count() {
            if self.is_upper(visible, Rank(rank)) {
                found = found.with(Rank(rank));
            }
        }
        found
    }

    /// Whether the visible nodes from the own rank on have enough votes.
    pub(crate) fn is_able(&self, visible: Mask) -> bool
        ensures { result ≡ is_able self.now visible }
    {
        self.enough <= self.nodes.votes_among(self.upper_nodes(visible))
    }

    pub(crate) fn says_able(&self, rank: Rank) -> bool
        requires { rank.0 < 32 }
        ensures { result ≡ says_able self.now rank.0 }
    {
        match self.said[usize::from(rank.0)] {
            Some(said) => said.able,
            None => false,
        }
    }

    fn may_lead(&self, visible: Mask, rank: Rank) -> bool
        requires { rank.0 < 32 }
        ensures { result ≡ may_lead self.now visible rank.0 }
    {
        if !visible.has(rank) || rank.0 > self.me.0 {
            return false;
        }
        if rank == self.me {
            self.is_able(visible)
        } else {
            self.says_able(rank)
        }
    }

    /// The able visible nodes up to the own rank.
    fn able_nodes(&self, visible: Mask) -> Mask
        ensures exact { result ≡ able_nodes self.now visible }
        ensures configured { has_configured self.now.nodes result ≡ true }
    {
        let mut found = Mask(0);
        for rank in 0..self.count() {
            if self.may_lead(visible, Rank(rank)) {
                found = found.with(Rank(rank));
            }
        }
        found
    }

    /// The able node that this one follows.
    pub(crate) fn followed(&self, visible: Mask) -> Option<Rank>
        ensures exact { option_map (λ rank. rank.0) result ≡ followed self.now visible }
        ensures below { IfSome result (λ rank. rank.0 < 32) }
    {
        self.least_of(self.able_nodes(visible))
    }

    pub(crate) fn leader_of(&self, visible: Mask) -> Option<Rank>
        ensures exact { option_map (λ rank. rank.0) result ≡ leader_of self.now visible }
        ensures below { IfSome result (λ rank. rank.0 < 32) }
    {
        match self.followed(visible) {
            Some(rank) => Some(rank),
            None => self.least_of(visible),
        }
    }

    /// Whom a node follows, by its last Hello.
    pub(crate) fn follows_of(&self, rank: Rank) -> Option<Rank>
        requires { rank.0 < 32 }
        ensures { result ≡ follows_of self.now rank.0 }
    {
        let said = self.said[usize::from(rank.0)]?;
        said.follows
    }

    fn follows_this(&self, rank: Rank) -> bool
        requires { rank.0 < 32 }
        ensures { result ≡ follows_this self.now rank.0 }
    {
        match self.follows_of(rank) {
            Some(leader) => leader == self.me,
            None => false,
        }
    }

    fn is_heard_since(&self, rank: Rank, other: Rank) -> bool
        requires rank { rank.0 < 32 }
        requires other { other.0 < 32 }
        ensures { result ≡ is_heard_since self.now rank.0 other.0 }
    {
        match (
            self.hellos[usize::from(other.0)],
            self.hellos[usize::from(rank.0)],
        ) {
            (Some(first), Some(heard)) => first <= heard,
            (Some(_), None) | (None, _) => false,
        }
    }

    fn is_follower_since(&self, leader: Rank, rank: Rank) -> bool
        requires leader { leader.0 < 32 }
        requires rank { rank.0 < 32 }
        ensures { result ≡ is_follower_since self.now leader.0 rank.0 }
    {
        self.seen.has(leader) && self.follows_this(leader) && self.is_heard_since(leader, rank)
    }

    /// Whether a node said that it follows one that this node sees, and that said no earlier that it follows this node.
    pub(crate) fn follows_follower(&self, rank: Rank) -> bool
        requires { rank.0 < 32 }
        ensures { result ≡ follows_follower self.now rank.0 }
    {
        match self.follows_of(rank) {
            Some(leader) => self.is_configured(leader) && self.is_follower_since(leader, rank),
            None => false,
        }
    }

    /// Whether a node said that it follows one that the last look saw and this one does not.
    fn follows_lost(&self, visible: Mask, rank: Rank) -> bool
        requires { rank.0 < 32 }
        ensures { result ≡ follows_lost self.now visible rank.0 }
    {
        match self.follows_of(rank) {
            Some(leader) => self.seen.has(leader) && !visible.has(leader),
            None => false,
        }
    }

    fn is_forgotten(&self, visible: Mask, rank: Rank) -> bool
        requires { rank.0 < 32 }
        ensures { result ≡ is_forgotten self.now visible rank.0 }
    {
        self.forgotten.has(rank) || self.follows_lost(visible, rank)
    }

    /// The nodes of which it is forgotten whom they follow, at a look that sees these.
    pub(crate) fn forgotten_nodes(&self, visible: Mask) -> Mask
        ensures exact { result ≡ forgotten_nodes self.now visible }
        ensures configured { has_configured self.now.nodes result ≡ true }
    {
        let mut found = Mask(0);
        for rank in 0..self.count() {
            if self.is_forgotten(visible, Rank(rank)) {
                found = found.with(Rank(rank));
            }
        }
        found
    }
}
