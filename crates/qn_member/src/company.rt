//! Those whom a leader leads, and the present members that are missed: in dispute, in doubt, overdue.
use crate::member::Member;
use qn_base::{Mask, Rank};

impl Member {
    ghost use Rattle.std.specs.Prelude.{◌≡◌, ◌<◌, ℕ, Some, true};
    ghost use Rattle.qn_base.specs.Members.{is_member};
    ghost use Rattle.qn_member.specs.Maker.{is_outside, outside_nodes, company_at, leader_at, company_under, disputed_nodes, follows_other, has_configured, is_disputed, is_kept, is_known, is_led, is_missed, is_overdue, is_present, is_present_member, kept_nodes, known_nodes, led_nodes, overdue_nodes};

    /// Whether a node said that it follows another node than this one.
    pub(crate) fn follows_other(&self, rank: Rank) -> bool
        requires { rank.0 < 32 }
        ensures { result ≡ follows_other self.now rank.0 }
    {
        match self.follows_of(rank) {
            Some(leader) => leader != self.me && !self.forgotten.has(rank),
            None => false,
        }
    }

    fn is_led(&self, visible: Mask, rank: Rank) -> bool
        requires { rank.0 < 32 }
        ensures { result ≡ is_led self.now visible rank.0 }
    {
        rank == self.me || visible.has(rank) && self.me.0 < rank.0 && !self.follows_other(rank)
    }

    /// The nodes that this one leads.
    fn led_nodes(&self, visible: Mask) -> Mask
        ensures exact { result ≡ led_nodes self.now visible }
        ensures configured { has_configured self.now.nodes result ≡ true }
    {
        let mut found = Mask(0);
        for rank in 0..self.count() {
            if self.is_led(visible, Rank(rank)) {
                found = found.with(Rank(rank));
            }
        }
        found
    }

    /// The company of a look with this leader.
    fn company_under(&self, visible: Mask, leader: Rank) -> Mask
        requires { has_configured self.now.nodes visible ≡ true }
        ensures exact { result ≡ company_under self.now visible leader.0 }
        ensures configured { has_configured self.now.nodes result ≡ true }
    {
        if leader == self.me {
            self.led_nodes(visible)
        } else {
            visible
        }
    }

    /// The company of the last look.
    pub(crate) fn company(&self) -> Mask
        requires { has_configured self.now.nodes self.now.seen ≡ true }
        ensures exact { result ≡ company_at self.now }
        ensures configured { has_configured self.now.nodes result ≡ true }
        ensures own { leader_at self.now ≡ Some self.now.me → is_member result self.now.me ≡ true }
    {
        match self.leader_of(self.seen) {
            Some(leader) => self.company_under(self.seen, leader),
            None => self.seen,
        }
    }

    fn is_outside(&self, tick: u64, company: Mask, rank: Rank) -> bool
        requires { rank.0 < 32 }
        ensures { result ≡ is_outside tick self.now company rank.0 }
    {
        self.is_heard(tick, rank) && !company.has(rank)
    }

    /// The nodes that are heard and not in company.
    pub(crate) fn outside_nodes(&self, tick: u64, company: Mask) -> Mask
        ensures exact { result ≡ outside_nodes tick self.now company }
        ensures configured { has_configured self.now.nodes result ≡ true }
    {
        let mut found = Mask(0);
        for rank in 0..self.count() {
            if self.is_outside(tick, company, Rank(rank)) {
                found = found.with(Rank(rank));
            }
        }
        found
    }

    /// Whether a node is in company or has left.
    fn is_known(&self, company: Mask, rank: Rank) -> bool
        requires { rank.0 < 32 }
        ensures { result ≡ is_known self.now company rank.0 }
    {
        company.has(rank) || self.has_left(rank)
    }

    /// The nodes of which it is known where they are.
    pub(crate) fn known_nodes(&self, company: Mask) -> Mask
        ensures exact { result ≡ known_nodes self.now company }
        ensures configured { has_configured self.now.nodes result ≡ true }
    {
        let mut found = Mask(0);
        for rank in 0..self.count() {
            if self.is_known(company, Rank(rank)) {
                found = found.with(Rank(rank));
            }
        }
        found
    }

    fn is_overdue(&self, tick: u64, rank: Rank) -> bool
        requires { rank.0 < 32 }
        ensures { result ≡ is_overdue tick self.now rank.0 }
    {
        match self.differs[usize::from(rank.0)] {
            Some(since) => !self.has_left(rank) && self.is_past(tick, since),
            None => false,
        }
    }

    /// The nodes that have differed for three loops.
    pub(crate) fn overdue_nodes(&self, tick: u64) -> Mask
        ensures exact { result ≡ overdue_nodes tick self.now }
        ensures configured { has_configured self.now.nodes result ≡ true }
    {
        let mut found = Mask(0);
        for rank in 0..self.count() {
            if self.is_overdue(tick, Rank(rank)) {
                found = found.with(Rank(rank));
            }
        }
        found
    }

    fn is_missed(&self, tick: u64, company: Mask, rank: Rank) -> bool
        requires { rank.0 < 32 }
        ensures { result ≡ is_missed tick self.now company rank.0 }
    {
        self.is_present_member(rank)
            && !company.has(rank)
            && !self.has_left(rank)
            && !self.is_overdue(tick, rank)
    }

    fn is_disputed(&self, tick: u64, company: Mask, rank: Rank) -> bool
        requires { rank.0 < 32 }
        ensures { result ≡ is_disputed tick self.now company rank.0 }
    {
        self.is_missed(tick, company, rank) && self.is_heard(tick, rank)
    }

    /// The present members in dispute.
    pub(crate) fn disputed_nodes(&self, tick: u64, company: Mask) -> Mask
        ensures exact { result ≡ disputed_nodes tick self.now company }
        ensures configured { has_configured self.now.nodes result ≡ true }
    {
        let mut found = Mask(0);
        for rank in 0..self.count() {
            if self.is_disputed(tick, company, Rank(rank)) {
                found = found.with(Rank(rank));
            }
        }
        found
    }

    fn is_kept(&self, tick: u64, company: Mask, rank: Rank) -> bool
        requires { rank.0 < 32 }
        ensures { result ≡ is_kept tick self.now company rank.0 }
    {
        company.has(rank) || self.is_missed(tick, company, rank) && !self.is_heard(tick, rank)
    }

    /// The company and the present members in doubt.
    pub(crate) fn kept_nodes(&self, tick: u64, company: Mask) -> Mask
        requires { has_configured self.now.nodes company ≡ true }
        ensures exact { result ≡ kept_nodes tick self.now company }
        ensures configured { has_configured self.now.nodes result ≡ true }
        ensures keeps { (rank : ℕ) → is_member company rank ≡ true → is_member result rank ≡ true }
    {
        let mut found = Mask(0);
        for rank in 0..self.count() {
            if self.is_kept(tick, company, Rank(rank)) {
                found = found.with(Rank(rank));
            }
        }
        found
    }

    pub(crate) fn is_present_member(&self, rank: Rank) -> bool
        ensures { result ≡ is_present_member self.now rank.0 }
    {
        match self.view {
            Some(present) => present.members.has(rank),
            None => false,
        }
    }

    /// Whether these are the members of the present view.
    pub(crate) fn is_present(&self, visible: Mask) -> bool
        ensures { result ≡ is_present self.now visible }
    {
        match self.view {
            Some(present) => present.members == visible,
            None => false,
        }
    }
}
