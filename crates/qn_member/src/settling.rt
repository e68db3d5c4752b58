//! When a change is settled, and the view that a look makes.
ghost use Rattle.std.specs.Prelude.{◌≡◌};
ghost use Rattle.qn_member.specs.Maker.{is_in_one};

use crate::change::Change;
use crate::member::Member;
use qn_base::{Mask, Rank, Said, View};
use qn_candidate::{next_plain, without_name};

/// Whether a node is in one of two sets alone.
fn is_in_one(here: bool, there: bool) -> bool
    ensures { result ≡ is_in_one here there }
{
    if here { !there } else { there }
}

impl Member {
    ghost use Rattle.std.specs.Prelude.{◌≡◌, ◌≢◌, ◌<◌, ◌≤◌, IfSome, IsTrue, Some, false, true};
    ghost use Rattle.std.specs.Option.{option_map_or};
    ghost use Rattle.qn_base.specs.Members.{is_member};
    ghost use Rattle.qn_member.specs.Maker.{first_loops, is_first_due, change_at, differs_still, noted, noted_with, installed_beside, with_ranks, changed, differs_at, followed_view, has_configured, installed, is_quiet, is_steady, is_taken, may_install, members_at, next_view, own_view};

    /// Remembers the look, the change that it finds, and what a Hello says then.
    pub(crate) fn note(&mut self, tick: u64)
        requires { has_configured self.old.nodes self.old.seen ≡ true }
        ensures exact { self.new ≡ noted tick self.old }
        ensures configured { has_configured self.new.nodes self.new.seen ≡ true }
    {
        let company = self.company();
        let said = self.said_at(tick);
        self.note_with(tick, company, said);
    }

    /// Remembers a look that finds this company, the change that it finds, and what a Hello says.
    pub(crate) fn note_with(&mut self, tick: u64, company: Mask, said: Said)
        ensures { self.new ≡ noted_with tick company said self.old }
    {
        let change = self.change_at(tick, company);
        let differs = self.differs_after(tick, company);
        self.first_look = self.first_look.or(Some(tick));
        self.change = change;
        self.differs = differs;
        self.says = said;
    }

    fn change_at(&self, tick: u64, company: Mask) -> Option<Change>
        ensures { result ≡ change_at tick self.now company }
    {
        if self.is_present(company) {
            None
        } else {
            Some(self.changed(tick, company))
        }
    }

    /// The change after a look that found other nodes than the present members.
    fn changed(&self, tick: u64, visible: Mask) -> Change
        ensures { result ≡ changed tick self.now.change visible }
    {
        match self.change {
            Some(change) if change.visible == visible => change,
            Some(change) => Change {
                visible,
                since: tick,
                begun: change.begun,
            },
            None => Change {
                visible,
                since: tick,
                begun: tick,
            },
        }
    }

    fn differs_after(&self, tick: u64, company: Mask) -> [Option<u64>; 32]
        ensures { result ≡ with_ranks (differs_at tick self.now company) 32 self.now.differs }
    {
        let mut differs = self.differs;
        for rank in 0u8..32 {
            differs[usize::from(rank)] = self.differs_at(tick, company, Rank(rank));
        }
        differs
    }

    /// Since when the looks in a row found a node otherwise than the present view.
    fn differs_at(&self, tick: u64, company: Mask, rank: Rank) -> Option<u64>
        requires { rank.0 < 32 }
        ensures { result ≡ differs_at tick self.now company rank.0 }
    {
        if is_in_one(self.is_present_member(rank), company.has(rank)) {
            Some(self.differs[usize::from(rank.0)].unwrap_or(tick))
        } else {
            None
        }
    }

    pub(crate) fn is_steady(&self, tick: u64) -> bool
        ensures { result ≡ is_steady tick self.now }
    {
        match self.change {
            Some(change) => tick >= change.since && tick - change.since >= self.loop_ms,
            None => false,
        }
    }

    fn is_change_quiet(&self, tick: u64) -> bool
        ensures { result ≡ option_map_or (is_quiet tick self.now) self.now.change false }
    {
        match self.change {
            Some(change) => self.is_quiet(tick, change),
            None => false,
        }
    }

    /// Whether the same nodes were visible at each look for a loop, or the change goes on for three.
    fn is_quiet(&self, tick: u64, change: Change) -> bool
        ensures { result ≡ is_quiet tick self.now change }
    {
        (tick >= change.since && tick - change.since >= self.loop_ms)
            || self.is_past(tick, change.begun)
    }

    fn first_loops(&self, tick: u64, company: Mask) -> u64
        ensures value { result ≡ first_loops tick self.now company }
        ensures few { result ≤ 4 }
    {
        if self.outside_nodes(tick, company).0 == 0 {
            3
        } else {
            4
        }
    }

    fn may_install(&self, tick: u64, company: Mask) -> bool
        ensures { result ≡ may_install tick self.now company }
    {
        self.view.is_some() || self.nodes.are_all_in(company) || self.is_first_due(tick, company)
    }

    /// Whether so many loops passed since the first look that a first view may come.
    pub(crate) fn is_first_due(&self, tick: u64, company: Mask) -> bool
        ensures { result ≡ is_first_due tick self.now company }
    {
        match self.first_look {
            Some(first) => {
                let wait = u128::from(self.first_loops(tick, company)) * u128::from(self.loop_ms);
                u128::from(first) + wait <= u128::from(tick)
            }
            None => false,
        }
    }

    /// The members of the view of a leader with this company, where one may be made.
    pub(crate) fn members_at(&self, tick: u64, company: Mask) -> Option<Mask>
        requires configured { has_configured self.now.nodes company ≡ true }
        requires own { is_member company self.now.me ≡ true }
        ensures exact { result ≡ members_at tick self.now company }
        ensures configured { IfSome result (λ members. has_configured self.now.nodes members ≡ true) }
        ensures contains { IfSome result (λ members. is_member members self.now.me ≡ true) }
    {
        if self.nodes.are_all_in(self.known_nodes(company)) {
            return Some(company);
        }
        if self.view.is_none() {
            return if self.is_change_quiet(tick) {
                Some(company)
            } else {
                None
            };
        }
        if self.disputed_nodes(tick, company).0 != 0 {
            return None;
        }
        if self.is_steady(tick) {
            return Some(company);
        }
        if self.overdue_nodes(tick).0 == 0 {
            return None;
        }
        Some(self.kept_nodes(tick, company))
    }

    /// The view of a leader with this company.
    fn own_view(&self, tick: u64, company: Mask) -> Option<View>
        requires configured { has_configured self.now.nodes company ≡ true }
        requires own { is_member company self.now.me ≡ true }
        ensures exact { result ≡ own_view tick self.now company }
        ensures other { IfSome result (λ view. self.now.view ≢ Some view) }
        ensures contains { IfSome result (λ view. is_member view.members self.now.me ≡ true) }
        ensures configured { IfSome result (λ view. has_configured self.now.nodes view.members ≡ true) }
    {
        if self.is_present(company) {
            return None;
        }
        let members = self.members_at(tick, company)?;
        if self.is_present(members) {
            return None;
        }
        Some(View {
            id: next_plain(self.greatest),
            members,
        })
    }

    fn is_taken(&self, leader: Rank, view: View) -> bool
        ensures exact { result ≡ is_taken self.now leader.0 view }
        ensures other { IsTrue result → self.now.view ≢ Some view }
    {
        view.members.has(self.me) && view.members.has(leader) && self.view != Some(view)
    }

    pub(crate) fn followed_view(&self, leader: Rank) -> Option<View>
        requires { leader.0 < 32 }
        ensures exact { result ≡ followed_view self.now leader.0 }
        ensures other { IfSome result (λ view. self.now.view ≢ Some view) }
        ensures contains { IfSome result (λ view. is_member view.members self.now.me ≡ true) }
        ensures configured { IfSome result
            (λ view. has_configured self.now.nodes view.members ≡ true) }
    {
        let view = self.announced[usize::from(leader.0)]?;
        if self.is_taken(leader, view) {
            Some(view)
        } else {
            None
        }
    }

    /// The view that a look at this tick installs, which is remembered.
    pub(crate) fn next_view(&self, tick: u64) -> Option<View>
        requires { has_configured self.now.nodes self.now.seen ≡ true }
        ensures exact { result ≡ next_view tick self.now }
        ensures other { IfSome result (λ view. self.now.view ≢ Some view) }
        ensures contains { IfSome result (λ view. is_member view.members self.now.me ≡ true) }
        ensures configured { IfSome result
            (λ view. has_configured self.now.nodes view.members ≡ true) }
    {
        let company = self.company();
        if !self.may_install(tick, company) {
            return None;
        }
        let leader = self.leader_of(self.seen)?;
        if leader == self.me {
            self.own_view(tick, company)
        } else {
            self.followed_view(leader)
        }
    }

    fn differs_still(&self, view: View, company: Mask, rank: Rank) -> Option<u64>
        requires { rank.0 < 32 }
        ensures { result ≡ differs_still self.now company view rank.0 }
    {
        let is_in = view.members.has(rank);
        if !is_in_one(is_in, self.is_present_member(rank)) && is_in_one(is_in, company.has(rank)) {
            self.differs[usize::from(rank.0)]
        } else {
            None
        }
    }

    fn differs_beside(&self, view: View, company: Mask) -> [Option<u64>; 32]
        ensures { result ≡ with_ranks (differs_still self.now company view) 32 self.now.differs }
    {
        let mut differs = self.differs;
        for rank in 0u8..32 {
            differs[usize::from(rank)] = self.differs_still(view, company, Rank(rank));
        }
        differs
    }

    pub(crate) fn install(&mut self, next: Option<View>)
        requires { has_configured self.old.nodes self.old.seen ≡ true }
        ensures { self.new ≡ installed next self.old }
    {
        let company = self.company();
        self.install_beside(company, next);
    }

    /// The view of a look that finds this company is the present one from now on.
    pub(crate) fn install_beside(&mut self, company: Mask, next: Option<View>)
        ensures { self.new ≡ installed_beside company next self.old }
    {
        if let Some(view) = next {
            let differs = self.differs_beside(view, company);
            self.view = next;
            self.greatest = self.greatest.max(without_name(view.id));
            self.change = None;
            self.differs = differs;
        }
    }
}
