//! What is kept of Hellos and of announced views: who is heard, and who has left.
use crate::member::Member;
use qn_base::{Mask, Rank, Said, View};
use qn_candidate::without_name;

/// What a plain Hello says, of a node of an older version.
pub(crate) const PLAIN: Said = Said {
    hears: Mask(u32::MAX),
    follows: None,
    able: true,
};

impl Member {
    ghost use Rattle.std.specs.Prelude.{◌≡◌, ◌<◌, true};
    ghost use Rattle.qn_member.specs.Maker.{after_announce, after_plain_hello, says_more, after_hello, has_configured, has_left, heard_nodes, is_forgotten_beside, is_heard, remembered_nodes, said_in};

    /// A Hello of that rank came at this tick, which says this. That of a rank that is not configured is passed over.
    pub fn on_hello(&mut self, tick: u64, from: Rank, said: Said)
        ensures { self.new ≡ after_hello tick from.0 said self.old }
    {
        if self.is_configured(from) {
            let said = self.said_in(said);
            self.forgotten = self.remembered_nodes(from);
            self.hellos[usize::from(from.0)] = Some(tick);
            self.said[usize::from(from.0)] = Some(said);
        }
    }

    /// A plain Hello came, of a node of an older version, or of one that says more in other Hellos.
    pub fn on_plain_hello(&mut self, tick: u64, from: Rank)
        ensures { self.new ≡ after_plain_hello tick from.0 self.old }
    {
        if self.is_configured(from) && !self.says_more(tick, from) {
            self.on_hello(tick, from, PLAIN);
        }
    }

    pub(crate) fn says_more(&self, tick: u64, from: Rank) -> bool
        requires { from.0 < 32 }
        ensures { result ≡ says_more tick self.now from.0 }
    {
        match (
            self.hellos[usize::from(from.0)],
            self.said[usize::from(from.0)],
        ) {
            (Some(heard), Some(said)) => self.is_recent(tick, heard) && said != PLAIN,
            (Some(_), None) | (None, _) => false,
        }
    }

    /// What a Hello says here: with `two_node` each one counts as a plain one.
    pub(crate) fn said_in(&self, said: Said) -> Said
        ensures { result ≡ said_in self.now said }
    {
        if self.enough == 0 { PLAIN } else { said }
    }

    /// That rank announced a view: it is kept as the last of its sender, until the next one, and counts, without its name, for the
    /// greatest id, whoever leads. A view without its sender is its farewell: its Hello counts no more. A view is passed over where the sender
    /// or a member is not configured.
    pub fn on_announce(&mut self, _tick: u64, from: Rank, view: View)
        ensures { self.new ≡ after_announce from.0 view self.old }
    {
        if self.is_configured(from) && self.has_configured(view.members) {
            if !view.members.has(from) {
                self.hellos[usize::from(from.0)] = None;
            }
            self.announced[usize::from(from.0)] = Some(view);
            self.greatest = self.greatest.max(without_name(view.id));
        }
    }

    /// The nodes of which it stays forgotten whom they follow, once this one is heard.
    fn remembered_nodes(&self, from: Rank) -> Mask
        ensures exact { result ≡ remembered_nodes self.now from.0 }
        ensures configured { has_configured self.now.nodes result ≡ true }
    {
        let mut found = Mask(0);
        for rank in 0..self.count() {
            if self.is_forgotten_beside(from, Rank(rank)) {
                found = found.with(Rank(rank));
            }
        }
        found
    }

    fn is_forgotten_beside(&self, from: Rank, rank: Rank) -> bool
        requires { rank.0 < 32 }
        ensures { result ≡ is_forgotten_beside self.now from.0 rank.0 }
    {
        self.forgotten.has(rank) && rank != from
    }

    pub(crate) fn is_heard(&self, tick: u64, rank: Rank) -> bool
        requires { rank.0 < 32 }
        ensures { result ≡ is_heard tick self.now rank.0 }
    {
        match self.hellos[usize::from(rank.0)] {
            Some(heard) => rank == self.me || self.is_recent(tick, heard),
            None => rank == self.me,
        }
    }

    /// The nodes that are heard.
    pub(crate) fn heard_nodes(&self, tick: u64) -> Mask
        ensures exact { result ≡ heard_nodes tick self.now }
        ensures configured { has_configured self.now.nodes result ≡ true }
    {
        let mut found = Mask(0);
        for rank in 0..self.count() {
            if self.is_heard(tick, Rank(rank)) {
                found = found.with(Rank(rank));
            }
        }
        found
    }

    /// Whether a node's last announcement is a farewell, and no Hello of it came since.
    pub(crate) fn has_left(&self, rank: Rank) -> bool
        requires { rank.0 < 32 }
        ensures { result ≡ has_left self.now rank.0 }
    {
        match self.announced[usize::from(rank.0)] {
            Some(view) => { self.hellos[usize::from(rank.0)].is_none() && !view.members.has(rank) }
            None => false,
        }
    }
}
