//! A view maker whose views name who may start, and its calls but for the look.
ghost use Rattle.std.specs.Prelude.{◌≡◌, ◌<◌};
ghost use Rattle.qn_member.specs.Naming.{has_bit, never_starts, own_flags, withdraws};

use crate::hearing::PLAIN;
use crate::lead::Lead;
use crate::member::Member;
use qn_base::{Mask, Rank, Said, Standing, View};
use qn_model::Settings;
use std::marker::Model;

/// The bits of what a node says of itself beside its Hello: it may never hold.
pub(crate) const BARRED: u8 = 0;
/// It may not hold now.
pub(crate) const UNFIT: u8 = 1;
/// It holds.
pub(crate) const HOLDS: u8 = 3;
/// It asks for the resource.
pub(crate) const PULLS: u8 = 2;
/// It holds, or sees a node that says so.
pub(crate) const KEEPS: u8 = 4;
/// It knows names.
pub(crate) const KNOWS: u8 = 5;
/// It is able to lead with the votes of the device alone.
pub(crate) const LEANS: u8 = 6;

/// The view maker of a node that knows names (this project's profile). Without `stand` it is a `Member`.
#[derive(Drop)]
pub struct NamingMember {
    pub(crate) member: Member,
    /// The votes that a side needs of its own nodes where the device gives it none.
    pub(crate) sure: u64,
    /// By rank, whom a node hears as its last Hello says; of the node itself, whom it sees.
    pub(crate) hears: [Mask; 32],
    /// By rank, whether the last Hello of a node did not name this one.
    pub(crate) deaf: [bool; 32],
    /// By rank, whether a node said that it never starts, and named this one in no Hello since that does not say so.
    pub(crate) unable: [bool; 32],
    /// By rank, the bits of what a node said of itself; 0 where it knows no names.
    pub(crate) flags: [u8; 32],
    /// By rank, how much a node is preferred: more is better.
    pub(crate) weights: [u8; 32],
    /// Who led at the last look, and since when.
    pub(crate) lead: Option<Lead>,
    /// The nodes that announced a view since then.
    pub(crate) came: Mask,
    /// By rank, whether a node said that it follows another one since it announced a view.
    pub(crate) withdrawn: [bool; 32],
    /// The tick at which the present view came.
    pub(crate) made: Option<u64>,
    /// At the last look each visible node knew names.
    pub(crate) naming: bool,
    /// The view that was handed on last is one under which nobody may start.
    pub(crate) closed: bool,
    /// What the node says of itself: after a look with what that found.
    pub(crate) stands: Standing,
    /// What it said of itself last.
    pub(crate) told_stands: Standing,
}

impl Model for NamingMember {
    ghost use Rattle.qn_member.specs.Naming.{NamingMaker};

    ghost Value = { NamingMaker };

    ghost view = { λ m.
        record {
          maker = m.member;
          sure = m.sure;
          hears = m.hears;
          deaf = m.deaf;
          unable = m.unable;
          flags = m.flags;
          weights = m.weights;
          lead = m.lead;
          came = m.came;
          withdrawn = m.withdrawn;
          made = m.made;
          naming = m.naming;
          closed = m.closed;
          stands = m.stands;
          told_stands = m.told_stands;
        } };
}

/// Whether a node says so of itself.
pub(crate) fn has_bit(flags: u8, bit: u8) -> bool
    requires { bit < 8 }
    ensures { result ≡ has_bit flags bit }
{
    flags >> bit & 1 == 1
}

/// A Hello of a node that hears nobody.
const NAMES_NOBODY: Said = Said {
    hears: Mask(0),
    follows: None,
    able: false,
};

/// Whether a node says that it is barred, or unfit and does not hold: it starts under no view.
fn never_starts(flags: u8) -> bool
    ensures { result ≡ never_starts flags }
{
    has_bit(flags, BARRED) || has_bit(flags, UNFIT) && !has_bit(flags, HOLDS)
}

/// Whether a Hello of that rank says that it follows another node.
fn withdraws(from: Rank, said: Said) -> bool
    ensures { result ≡ withdraws from.0 said }
{
    match said.follows {
        Some(leader) => leader != from,
        None => false,
    }
}

/// What the node itself says: whether it is barred, unfit, or pulls, whether it holds, and that it knows names.
fn own_flags(standing: Standing, holds: bool) -> u8
    ensures { result ≡ own_flags standing holds }
{
    standing.flags % 8 + if holds { 40 } else { 32 }
}

impl NamingMember {
    ghost use Rattle.std.specs.Prelude.{◌≡◌, ◌<◌, IsTrue};
    ghost use Rattle.qn_member.specs.Naming.{after_named_announce, after_named_hello, after_named_plain_hello, after_stand, after_standing, first_naming, flags_of, is_other, is_own, is_passed_over, is_unable_then};

    /// The view maker of the node of that rank.
    pub fn new(settings: &Settings, me: Rank, loop_ms: u64) -> Self
        ensures { result ≡ first_naming settings.now me.0 loop_ms }
    {
        NamingMember {
            member: Member::new(settings, me, loop_ms),
            sure: settings.quorum(settings.expected),
            hears: [Mask(0); 32],
            deaf: [false; 32],
            unable: [false; 32],
            flags: [0; 32],
            weights: [0; 32],
            lead: None,
            came: Mask(0),
            withdrawn: [false; 32],
            made: None,
            naming: false,
            closed: false,
            stands: Standing {
                flags: 0,
                weight: 0,
            },
            told_stands: Standing {
                flags: 0,
                weight: 0,
            },
        }
    }

    fn is_other(&self, from: Rank) -> bool
        ensures exact { result ≡ is_other self.now from.0 }
        ensures below { IsTrue result → from.0 < 32 }
    {
        self.member.is_configured(from) && from != self.member.me
    }

    /// A Hello of that rank came at this tick, which says this. What its sender says of itself counts no more, until
    /// `on_standing` says it anew; and what it announced is withdrawn where it follows another node. That of a rank that is not configured is passed over.
    pub fn on_hello(&mut self, tick: u64, from: Rank, said: Said)
        ensures { self.new ≡ after_named_hello tick from.0 said self.old }
    {
        if self.is_other(from) {
            let heard = self.member.said_in(said);
            self.hears[usize::from(from.0)] = heard.hears;
            self.deaf[usize::from(from.0)] = !said.hears.has(self.member.me);
            self.flags[usize::from(from.0)] = 0;
            if withdraws(from, heard) {
                self.withdrawn[usize::from(from.0)] = true;
            }
        }
        self.member.on_hello(tick, from, said);
    }

    /// A plain Hello came, of a node of an older version.
    pub fn on_plain_hello(&mut self, tick: u64, from: Rank)
        ensures { self.new ≡ after_named_plain_hello tick from.0 self.old }
    {
        if self.member.is_configured(from) && !self.member.says_more(tick, from) {
            self.on_hello(tick, from, PLAIN);
        }
    }

    /// What that rank says of itself beside the Hello that came last: it counts where the node knows names.
    pub fn on_standing(&mut self, from: Rank, standing: Standing)
        ensures { self.new ≡ after_standing from.0 standing self.old }
    {
        if self.is_other(from) && has_bit(standing.flags, KNOWS) {
            let passed_over = self.is_passed_over(from, standing.flags);
            let unable = self.is_unable_then(from, standing.flags);
            if passed_over {
                self.member.said[usize::from(from.0)] = Some(NAMES_NOBODY);
            }
            self.unable[usize::from(from.0)] = unable;
            self.flags[usize::from(from.0)] = standing.flags;
            self.weights[usize::from(from.0)] = standing.weight;
        }
    }

    /// Whether a Hello counts as one that names nobody, once its sender says this: with `two_node`, while this node does not hold, that of a node
    /// which never starts and did not name it.
    fn is_passed_over(&self, from: Rank, flags: u8) -> bool
        requires { from.0 < 32 }
        ensures { result ≡ is_passed_over self.now from.0 flags }
    {
        self.is_own(KNOWS)
            && !self.is_own(HOLDS)
            && self.member.enough == 0
            && self.deaf[usize::from(from.0)]
            && self.is_unable_then(from, flags)
    }

    /// Whether a node counts as one that never starts, once its Hello says this.
    fn is_unable_then(&self, from: Rank, flags: u8) -> bool
        requires { from.0 < 32 }
        ensures { result ≡ is_unable_then self.now from.0 flags }
    {
        never_starts(flags) || self.deaf[usize::from(from.0)] && self.unable[usize::from(from.0)]
    }

    /// What the node says of itself from now on: whether it is barred, unfit, or pulls (bits 0 to 2), how much it is preferred, and
    /// whether it holds. From the first call on it knows names. Until the next look a Hello says this alone.
    pub fn stand(&mut self, standing: Standing, holds: bool)
        ensures { self.new ≡ after_stand standing holds self.old }
    {
        let me = self.member.me;
        if self.member.is_configured(me) {
            let flags = own_flags(standing, holds);
            self.flags[usize::from(me.0)] = flags;
            self.weights[usize::from(me.0)] = standing.weight;
            self.stands = Standing {
                flags,
                weight: standing.weight,
            };
        }
    }

    /// That rank announced a view, as a view maker without names takes it.
    pub fn on_announce(&mut self, tick: u64, from: Rank, view: View)
        ensures { self.new ≡ after_named_announce from.0 view self.old }
    {
        if self.member.is_configured(from) && self.member.has_configured(view.members) {
            self.came = Mask(self.came.0 | 1 << from.0);
            self.withdrawn[usize::from(from.0)] = false;
        }
        self.member.on_announce(tick, from, view);
    }

    /// What that node said of itself.
    pub(crate) fn flags_of(&self, rank: Rank) -> u8
        requires { rank.0 < 32 }
        ensures { result ≡ flags_of self.now rank.0 }
    {
        self.flags[usize::from(rank.0)]
    }

    /// Whether the node says so of itself.
    pub(crate) fn is_own(&self, bit: u8) -> bool
        requires { bit < 8 }
        ensures exact { result ≡ is_own self.now bit }
        ensures below { IsTrue result → self.now.maker.me < 32 }
    {
        let me = self.member.me;
        me.0 < 32 && has_bit(self.flags_of(me), bit)
    }
}
