//! Whom a node follows, and whom it leads, where all that it sees know names.
use crate::naming::{BARRED, HOLDS, KEEPS, KNOWS, LEANS, NamingMember, PULLS, UNFIT, has_bit};
use qn_base::{Mask, Rank};
use qn_candidate::{Facts, meets};

impl NamingMember {
    ghost use Rattle.std.specs.Prelude.{◌≡◌, ◌<◌, IfSome, Some, true};
    ghost use Rattle.std.specs.Option.{option_map};
    ghost use Rattle.qn_base.specs.Members.{is_member};
    ghost use Rattle.qn_member.specs.Maker.{has_configured};
    ghost use Rattle.qn_member.specs.Naming.{able_ones, company_by_name, facts_of, flagged_nodes, followed_by_name, has_sure_votes, is_able_node, is_fit_to_lead, is_flagged, is_keeper, is_led_by_name, is_met_holder, is_sure, is_sure_in, keepers, knows_all, leader_by_name, least_sure, led_by_name, met_holders, sure_ones};

    fn is_flagged(&self, visible: Mask, bit: u8, rank: Rank) -> bool
        requires bit { bit < 8 }
        requires rank { rank.0 < 32 }
        ensures { result ≡ is_flagged self.now visible bit rank.0 }
    {
        visible.has(rank) && has_bit(self.flags_of(rank), bit)
    }

    /// The visible nodes that say so of themselves.
    pub(crate) fn flagged_nodes(&self, visible: Mask, bit: u8) -> Mask
        requires { bit < 8 }
        ensures { result ≡ flagged_nodes self.now visible bit }
    {
        let mut found = Mask(0);
        for rank in 0..self.member.count() {
            if self.is_flagged(visible, bit, Rank(rank)) {
                found = found.with(Rank(rank));
            }
        }
        found
    }

    /// Whether the node and all that it sees know names; never with `two_node`.
    pub(crate) fn knows_all(&self, visible: Mask) -> bool
        ensures { result ≡ knows_all self.now visible }
    {
        self.is_own(KNOWS)
            && self.member.enough != 0
            && self.flagged_nodes(visible, KNOWS) == visible
    }

    /// What is known of the nodes, of which the node sees these.
    pub(crate) fn facts(&self, visible: Mask) -> Facts
        ensures { result ≡ facts_of self.now visible }
    {
        Facts {
            sees: visible,
            hears: self.hears,
            knows: self.flagged_nodes(visible, KNOWS),
            barred: self.flagged_nodes(visible, BARRED),
            unfit: self.flagged_nodes(visible, UNFIT),
            pulls: self.flagged_nodes(visible, PULLS),
            holds: self.flagged_nodes(visible, HOLDS),
            weights: self.weights,
        }
    }

    /// Whether the node may hold now, and the nodes that it sees have enough votes.
    pub(crate) fn is_fit_to_lead(&self) -> bool
        ensures { result ≡ is_fit_to_lead self.now }
    {
        !self.is_own(BARRED)
            && !self.is_own(UNFIT)
            && self.member.enough <= self.member.nodes.votes_among(self.member.seen)
    }

    fn is_able_node(&self, rank: Rank) -> bool
        requires { rank.0 < 32 }
        ensures { result ≡ is_able_node self.now rank.0 }
    {
        if !self.member.seen.has(rank) {
            return false;
        }
        if rank == self.member.me {
            self.is_fit_to_lead()
        } else {
            self.member.says_able(rank)
        }
    }

    fn able_ones(&self) -> Mask
        ensures { result ≡ able_ones self.now }
    {
        let mut found = Mask(0);
        for rank in 0..self.member.count() {
            if self.is_able_node(Rank(rank)) {
                found = found.with(Rank(rank));
            }
        }
        found
    }

    fn is_met_holder(&self, facts: &Facts, rank: Rank, other: Rank) -> bool
        requires rank { rank.0 < 32 }
        requires other { other.0 < 32 }
        ensures { result ≡ is_met_holder facts.now rank.0 other.0 }
    {
        facts.holds.has(other) && meets(facts, rank, other)
    }

    /// The nodes that hold and that a node meets.
    fn met_holders(&self, facts: &Facts, rank: Rank) -> Mask
        requires { rank.0 < 32 }
        ensures { result ≡ met_holders self.now facts.now rank.0 }
    {
        let mut found = Mask(0);
        for other in 0..self.member.count() {
            if self.is_met_holder(facts, rank, Rank(other)) {
                found = found.with(Rank(other));
            }
        }
        found
    }

    fn is_keeper(&self, facts: &Facts, rank: Rank) -> bool
        requires { rank.0 < 32 }
        ensures { result ≡ is_keeper self.now facts.now rank.0 }
    {
        self.is_able_node(rank)
            && (has_bit(self.flags_of(rank), KEEPS) || self.met_holders(facts, rank).0 != 0)
    }

    /// The able nodes that hold, or see a node that holds.
    fn keepers(&self, facts: &Facts) -> Mask
        ensures { result ≡ keepers self.now facts.now }
    {
        let mut found = Mask(0);
        for rank in 0..self.member.count() {
            if self.is_keeper(facts, Rank(rank)) {
                found = found.with(Rank(rank));
            }
        }
        found
    }

    /// Whether the nodes that the node sees have enough votes without those of the device.
    pub(crate) fn has_sure_votes(&self) -> bool
        ensures { result ≡ has_sure_votes self.now }
    {
        self.sure <= self.member.nodes.votes_among(self.member.seen)
    }

    /// Whether a node has enough votes without those of the device: as it says, or as the node itself finds.
    fn is_sure(&self, rank: Rank) -> bool
        requires { rank.0 < 32 }
        ensures { result ≡ is_sure self.now rank.0 }
    {
        if rank == self.member.me {
            self.has_sure_votes()
        } else {
            !has_bit(self.flags_of(rank), LEANS)
        }
    }

    fn is_sure_in(&self, nodes: Mask, rank: Rank) -> bool
        requires { rank.0 < 32 }
        ensures { result ≡ is_sure_in self.now nodes rank.0 }
    {
        nodes.has(rank) && self.is_sure(rank)
    }

    fn sure_ones(&self, nodes: Mask) -> Mask
        ensures { result ≡ sure_ones self.now nodes }
    {
        let mut found = Mask(0);
        for rank in 0..self.member.count() {
            if self.is_sure_in(nodes, Rank(rank)) {
                found = found.with(Rank(rank));
            }
        }
        found
    }

    /// The least of these nodes that is sure, else the least of them.
    #[tactic(auto, unfolding(crate::specs::Naming::least_sure))]
    fn least_sure(&self, nodes: Mask) -> Option<Rank>
        ensures exact { option_map (λ rank. rank.0) result ≡ least_sure self.now nodes }
        ensures below { IfSome result (λ rank. rank.0 < 32) }
    {
        match self.member.least_of(self.sure_ones(nodes)) {
            Some(rank) => Some(rank),
            None => self.member.least_of(nodes),
        }
    }

    /// The least able node that keeps, else the least able one; of each of these a sure one first.
    pub(crate) fn followed_by_name(&self, facts: &Facts) -> Option<Rank>
        ensures exact { option_map (λ rank. rank.0) result ≡ followed_by_name self.now facts.now }
        ensures below { IfSome result (λ rank. rank.0 < 32) }
    {
        match self.least_sure(self.keepers(facts)) {
            Some(rank) => Some(rank),
            None => self.least_sure(self.able_ones()),
        }
    }

    fn is_led_by_name(&self, rank: Rank) -> bool
        requires { rank.0 < 32 }
        ensures { result ≡ is_led_by_name self.now rank.0 }
    {
        rank == self.member.me
            || self.member.seen.has(rank)
                && (!self.member.follows_other(rank) || self.member.follows_follower(rank))
    }

    fn led_by_name(&self) -> Mask
        ensures exact { result ≡ led_by_name self.now }
        ensures configured { has_configured self.now.maker.nodes result ≡ true }
    {
        let mut found = Mask(0);
        for rank in 0..self.member.count() {
            if self.is_led_by_name(Rank(rank)) {
                found = found.with(Rank(rank));
            }
        }
        found
    }

    /// Those that a look finds together, where all know names.
    pub(crate) fn company_by_name(&self, facts: &Facts) -> Mask
        requires { has_configured self.now.maker.nodes self.now.maker.seen ≡ true }
        ensures exact { result ≡ company_by_name self.now facts.now }
        ensures configured { has_configured self.now.maker.nodes result ≡ true }
        ensures own { leader_by_name self.now facts.now ≡ Some self.now.maker.me
            → is_member result self.now.maker.me ≡ true }
    {
        if self.leader_by_name(facts) == Some(self.member.me) {
            self.led_by_name()
        } else {
            self.member.seen
        }
    }

    fn leader_by_name(&self, facts: &Facts) -> Option<Rank>
        ensures { option_map (λ rank. rank.0) result ≡ leader_by_name self.now facts.now }
    {
        match self.followed_by_name(facts) {
            Some(rank) => Some(rank),
            None => self.member.least_of(self.member.seen),
        }
    }
}
