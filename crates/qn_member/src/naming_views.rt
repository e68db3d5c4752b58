//! A look of a view maker that names: who leads, when a view comes, whom it names, and the copy that the node is handed.
ghost use Rattle.std.specs.Prelude.{◌≡◌};
ghost use Rattle.std.specs.Option.{option_map};
ghost use Rattle.qn_member.specs.NamingViews.{lead_since, name_part, named_rank};

use crate::lead::Lead;
use crate::naming::{BARRED, HOLDS, KNOWS, NamingMember, UNFIT};
use qn_base::{Mask, Rank, Said, View};
use qn_candidate::{Facts, candidate_of, hears_all, number_of, without_name};

/// What one in the high byte of a number stands for.
const HIGH: u64 = 1 << 56;

/// The rank that a number names.
fn named_rank(number: u64) -> Option<Rank>
    ensures { result ≡ named_rank number }
{
    let name = number / HIGH;
    if 0 < name && name < 33 {
        Some(Rank((name - 1) as u8))
    } else {
        None
    }
}

/// What a number has for its name.
fn name_part(number: u64) -> u64
    ensures { result ≡ name_part number }
{
    number.saturating_sub(without_name(number))
}

/// Who leads since a look.
fn lead_since(tick: u64, leader: Option<Rank>) -> Option<Lead>
    ensures { result ≡ lead_since tick (option_map (λ rank. rank.0) leader) }
{
    match leader {
        Some(rank) => Some(Lead { rank, since: tick }),
        None => None,
    }
}

impl NamingMember {
    ghost use Rattle.std.specs.Prelude.{◌≡◌, ◌<◌, ℕ, IfSome, Some, length, true};
    ghost use Rattle.std.specs.Option.{option_map};
    ghost use Rattle.qn_base.specs.Members.{is_member};
    ghost use Rattle.qn_member.specs.Maker.{has_configured, led_by, view_at};
    ghost use Rattle.qn_member.specs.NamingViews.{after_by_name, after_found, after_look, after_plain_look, answer_at, apart_nodes, chosen_by, company_now, copy_again, copy_of, ended, followed_by_age, followed_now, handed, is_apart, is_closed_to, is_led_by, is_loop_old, is_named_anew, is_newer, is_newer_of, is_proven, is_sixth_loop, leader_now, leading, leads_itself, may_begin, may_not_start, members_by_name, named_now, next_by_name, noted_by_name, own_by_name, said_by_name, seeing_names, standing_at, view_by_name, view_found, view_of};

    /// A look at a tick: the view to install, or None where the present one stays. It is the node's own copy of the view: one
    /// under which nobody may start, where the node may not start and the view would choose it. A view that the look itself finds
    /// contains the node, and its members are configured.
    #[tactic(auto, unfolding(crate::specs::NamingViews::answer_at, crate::specs::NamingViews::after_look))]
    pub fn on_tick(&mut self, tick: u64) -> Option<View>
        ensures view { result ≡ answer_at tick self.old }
        ensures after { self.new ≡ after_look tick self.old }
        ensures contains { IfSome (view_found tick self.old)
            (λ view. is_member view.members self.old.maker.me ≡ true) }
        ensures configured { IfSome (view_found tick self.old) (λ view. (rank : ℕ)
            → is_member view.members rank ≡ true
            → rank < length self.old.maker.nodes) }
    {
        let found = self.look(tick);
        let handed = self.handed(found);
        self.end(tick, found);
        handed
    }

    #[tactic(auto, unfolding(crate::specs::NamingViews::view_found, crate::specs::NamingViews::after_found))]
    fn look(&mut self, tick: u64) -> Option<View>
        ensures view { result ≡ view_found tick self.old }
        ensures after { self.new ≡ after_found tick self.old }
        ensures contains { IfSome result (λ view. is_member view.members self.old.maker.me ≡ true) }
        ensures configured { IfSome result (λ view. (rank : ℕ)
            → is_member view.members rank ≡ true
            → rank < length self.old.maker.nodes) }
    {
        if self.is_own(KNOWS) {
            self.look_by_name(tick)
        } else {
            self.look_plain(tick)
        }
    }

    /// A look of a view maker without names.
    fn look_plain(&mut self, tick: u64) -> Option<View>
        ensures view { result ≡ view_at tick self.old.maker }
        ensures after { self.new ≡ after_plain_look tick self.old }
        ensures contains { IfSome result (λ view. is_member view.members self.old.maker.me ≡ true) }
        ensures configured { IfSome result (λ view. (rank : ℕ)
            → is_member view.members rank ≡ true
            → rank < length self.old.maker.nodes) }
    {
        let found = self.member.on_tick(tick);
        self.lead_by(tick);
        found
    }

    /// A look of a node that knows names.
    fn look_by_name(&mut self, tick: u64) -> Option<View>
        ensures view { result ≡ view_by_name tick self.old }
        ensures after { self.new ≡ after_by_name tick self.old }
        ensures contains { IfSome result (λ view. is_member view.members self.old.maker.me ≡ true) }
        ensures configured { IfSome result (λ view. (rank : ℕ)
            → is_member view.members rank ≡ true
            → rank < length self.old.maker.nodes) }
    {
        self.see_names(tick);
        let company = self.note_by_name(tick);
        let next = self.next_by_name(tick, company);
        self.member.install_beside(company, next);
        next
    }

    fn see_names(&mut self, tick: u64)
        ensures exact { self.new ≡ seeing_names tick self.old }
        ensures configured { has_configured self.new.maker.nodes self.new.maker.seen ≡ true }
    {
        self.member.see(tick);
        if self.member.me.0 < 32 {
            self.hears[usize::from(self.member.me.0)] = self.member.seen;
        }
    }

    /// Remembers a look, and gives the company that it finds.
    fn note_by_name(&mut self, tick: u64) -> Mask
        requires { has_configured self.old.maker.nodes self.old.maker.seen ≡ true }
        ensures after { self.new ≡ noted_by_name tick self.old }
        ensures company { result ≡ company_now self.old }
        ensures configured { has_configured self.new.maker.nodes result ≡ true }
        ensures own { led_by self.new.maker ≡ Some self.new.maker.me → is_member result self.new.maker.me ≡ true }
    {
        let company = self.company_now();
        let said = self.said_by_name(tick);
        self.member.note_with(tick, company, said);
        self.lead_by(tick);
        company
    }

    fn said_by_name(&self, tick: u64) -> Said
        ensures { result ≡ said_by_name tick self.now }
    {
        let naming = self.knows_all(self.member.seen);
        Said {
            hears: self.member.heard_nodes(tick),
            follows: self.followed_now(),
            able: if naming {
                self.is_fit_to_lead()
            } else {
                self.member.is_able(self.member.seen)
            },
        }
    }

    /// Whom the node follows: by names, where all know them.
    fn followed_now(&self) -> Option<Rank>
        ensures exact { option_map (λ rank. rank.0) result ≡ followed_now self.now }
        ensures below { IfSome result (λ rank. rank.0 < 32) }
    {
        if self.knows_all(self.member.seen) {
            self.followed_by_name(&self.facts(self.member.seen))
        } else {
            self.member.followed(self.member.seen)
        }
    }

    fn company_now(&self) -> Mask
        requires { has_configured self.now.maker.nodes self.now.maker.seen ≡ true }
        ensures exact { result ≡ company_now self.now }
        ensures configured { has_configured self.now.maker.nodes result ≡ true }
        ensures own { leader_now self.now ≡ Some self.now.maker.me → is_member result self.now.maker.me ≡ true }
    {
        if self.knows_all(self.member.seen) {
            self.company_by_name(&self.facts(self.member.seen))
        } else {
            self.member.company()
        }
    }

    /// Remembers who leads, since when, and that nobody announced a view since then.
    fn lead_by(&mut self, tick: u64)
        ensures { self.new ≡ leading tick (led_by self.old.maker) self.old }
    {
        let leader = self.member.leads();
        if !self.is_led_by(leader) {
            self.lead = lead_since(tick, leader);
            self.came = Mask(0);
        }
    }

    fn is_led_by(&self, leader: Option<Rank>) -> bool
        ensures { result ≡ is_led_by self.now (option_map (λ rank. rank.0) leader) }
    {
        match (self.lead, leader) {
            (Some(lead), Some(rank)) => lead.rank == rank,
            (Some(_), None) | (None, _) => false,
        }
    }

    pub(crate) fn leads_itself(&self) -> bool
        ensures { result ≡ leads_itself self.now }
    {
        self.member.leads() == Some(self.member.me)
    }

    fn is_apart(&self, facts: &Facts, company: Mask, rank: Rank) -> bool
        requires { rank.0 < 32 }
        ensures { result ≡ is_apart facts.now company rank.0 }
    {
        company.has(rank) && !hears_all(company, facts, rank)
    }

    /// The nodes of the company that do not meet another one of it.
    fn apart_nodes(&self, facts: &Facts, company: Mask) -> Mask
        ensures { result ≡ apart_nodes self.now facts.now company }
    {
        let mut found = Mask(0);
        for rank in 0..self.member.count() {
            if self.is_apart(facts, company, Rank(rank)) {
                found = found.with(Rank(rank));
            }
        }
        found
    }

    fn may_begin(&self, tick: u64, company: Mask) -> bool
        ensures { result ≡ may_begin tick self.now company }
    {
        if self.member.view.is_some() || self.member.is_first_due(tick, company) {
            return true;
        }
        if !self.member.nodes.are_all_in(company) {
            return false;
        }
        let facts = self.facts(self.member.seen);
        !self.leads_itself() || self.apart_nodes(&facts, company).0 == 0
    }

    fn is_sixth_loop(&self, tick: u64) -> bool
        ensures { result ≡ is_sixth_loop tick self.now.maker }
    {
        match self.member.first_look {
            Some(first) => {
                u128::from(first) + 6 * u128::from(self.member.loop_ms) <= u128::from(tick)
            }
            None => false,
        }
    }

    fn members_by_name(&self, tick: u64, company: Mask) -> Option<Mask>
        requires configured { has_configured self.now.maker.nodes company ≡ true }
        requires own { is_member company self.now.maker.me ≡ true }
        ensures exact { result ≡ members_by_name tick self.now company }
        ensures contains { IfSome result (λ members. is_member members self.now.maker.me ≡ true) }
        ensures configured { IfSome result (λ members. has_configured self.now.maker.nodes members ≡ true) }
    {
        if self.member.view.is_some() {
            return self.member.members_at(tick, company);
        }
        if self
            .member
            .nodes
            .are_all_in(self.member.known_nodes(company))
            || self.member.is_steady(tick)
            || self.is_sixth_loop(tick)
        {
            Some(company)
        } else {
            None
        }
    }

    fn named_now(&self) -> Option<Rank>
        ensures { result ≡ named_now self.now }
    {
        let view = self.member.view?;
        named_rank(view.id)
    }

    /// The view that a leader makes of these members.
    fn view_of(&self, members: Mask) -> View
        ensures { result ≡ view_of self.now members }
    {
        let facts = self.facts(self.member.seen);
        let named = candidate_of(members, &facts, self.named_now());
        View {
            id: number_of(named, self.member.greatest),
            members,
        }
    }

    fn is_named_anew(&self, tick: u64, next: View) -> bool
        ensures { result ≡ is_named_anew tick self.now next }
    {
        let is_other = match self.member.view {
            Some(present) => name_part(present.id) != name_part(next.id),
            None => false,
        };
        is_other && self.is_loop_old(tick)
    }

    /// Whether the present view is a loop old.
    fn is_loop_old(&self, tick: u64) -> bool
        ensures { result ≡ is_loop_old tick self.now }
    {
        match self.made {
            Some(made) => tick >= made && tick - made >= self.member.loop_ms,
            None => true,
        }
    }

    fn own_by_name(&self, tick: u64, company: Mask) -> Option<View>
        requires configured { has_configured self.now.maker.nodes company ≡ true }
        requires own { is_member company self.now.maker.me ≡ true }
        ensures exact { result ≡ own_by_name tick self.now company }
        ensures contains { IfSome result (λ view. is_member view.members self.now.maker.me ≡ true) }
        ensures configured { IfSome result (λ view. has_configured self.now.maker.nodes view.members ≡ true) }
    {
        if self.member.is_present(company) {
            let next = self.view_of(company);
            return if self.is_named_anew(tick, next) {
                Some(next)
            } else {
                None
            };
        }
        let members = self.members_by_name(tick, company)?;
        if self.member.is_present(members) {
            None
        } else {
            Some(self.view_of(members))
        }
    }

    fn is_newer(&self, view: View) -> bool
        ensures { result ≡ is_newer self.now view }
    {
        match self.member.view {
            Some(present) => without_name(present.id) < without_name(view.id),
            None => true,
        }
    }

    /// Whether a view is newer, and the leader that announced it did not withdraw it.
    fn is_newer_of(&self, leader: Rank, view: View) -> bool
        requires { leader.0 < 32 }
        ensures { result ≡ is_newer_of self.now leader.0 view }
    {
        self.is_newer(view) && !self.withdrawn[usize::from(leader.0)]
    }

    /// Whether the leader led at each look for a loop, and announced a view after the first of them.
    fn is_proven(&self, tick: u64) -> bool
        ensures { result ≡ is_proven tick self.now }
    {
        match self.lead {
            Some(lead) => {
                tick >= lead.since
                    && tick - lead.since >= self.member.loop_ms
                    && self.came.has(lead.rank)
            }
            None => false,
        }
    }

    fn followed_by_age(&self, tick: u64, leader: Rank) -> Option<View>
        ensures exact { result ≡ followed_by_age tick self.now leader.0 }
        ensures contains { IfSome result (λ view. is_member view.members self.now.maker.me ≡ true) }
        ensures configured { IfSome result (λ view. has_configured self.now.maker.nodes view.members ≡ true) }
    {
        if !self.member.is_configured(leader) {
            return None;
        }
        let view = self.member.followed_view(leader)?;
        if self.is_newer_of(leader, view) || self.is_proven(tick) {
            Some(view)
        } else {
            None
        }
    }

    fn next_by_name(&self, tick: u64, company: Mask) -> Option<View>
        requires configured { has_configured self.now.maker.nodes company ≡ true }
        requires own { led_by self.now.maker ≡ Some self.now.maker.me → is_member company self.now.maker.me ≡ true }
        ensures exact { result ≡ next_by_name tick self.now company }
        ensures contains { IfSome result (λ view. is_member view.members self.now.maker.me ≡ true) }
        ensures configured { IfSome result (λ view. has_configured self.now.maker.nodes view.members ≡ true) }
    {
        if !self.may_begin(tick, company) {
            return None;
        }
        let leader = self.member.leads()?;
        if leader == self.member.me {
            self.own_by_name(tick, company)
        } else {
            self.followed_by_age(tick, leader)
        }
    }

    fn may_not_start(&self) -> bool
        ensures { result ≡ may_not_start self.now }
    {
        self.is_own(BARRED) || self.is_own(UNFIT) && !self.is_own(HOLDS)
    }

    /// The member that a view chooses.
    fn chosen_by(&self, view: View) -> Option<Rank>
        ensures { option_map (λ rank. rank.0) result ≡ chosen_by self.now.maker view }
    {
        if view.is_barred() {
            return None;
        }
        match named_rank(view.id) {
            Some(rank) if view.members.has(rank) => Some(rank),
            Some(_) | None => self.member.least_of(view.members),
        }
    }

    /// Whether the view would choose the node, and it may not start.
    fn is_closed_to(&self, view: View) -> bool
        ensures { result ≡ is_closed_to self.now view }
    {
        self.may_not_start() && self.chosen_by(view) == Some(self.member.me)
    }

    /// The node's own copy of a view.
    fn copy_of(&self, view: View) -> View
        ensures { result ≡ copy_of self.now view }
    {
        if self.is_closed_to(view) {
            View {
                id: 254 * HIGH + view.id % HIGH,
                members: view.members,
            }
        } else {
            view
        }
    }

    /// The present view, where the node's own copy of it changed.
    fn copy_again(&self) -> Option<View>
        ensures { result ≡ copy_again self.now }
    {
        if !self.is_own(KNOWS) {
            return None;
        }
        let view = self.member.view?;
        if self.is_closed_to(view) == self.closed {
            None
        } else {
            Some(self.copy_of(view))
        }
    }

    fn handed(&self, found: Option<View>) -> Option<View>
        ensures { result ≡ handed found self.now }
    {
        match found {
            Some(view) => Some(self.copy_of(view)),
            None => self.copy_again(),
        }
    }

    /// Remembers what comes of a look.
    fn end(&mut self, tick: u64, found: Option<View>)
        ensures { self.new ≡ ended tick found self.old }
    {
        let closed = match self.member.view {
            Some(view) => self.is_closed_to(view),
            None => false,
        };
        let stands = self.standing_at();
        let naming = self.knows_all(self.member.seen);
        if found.is_some() {
            self.made = Some(tick);
        }
        self.naming = naming;
        self.closed = closed;
        self.stands = stands;
    }
}
