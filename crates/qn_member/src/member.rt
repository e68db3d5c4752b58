//! The view maker and its calls.
ghost use Rattle.std.specs.Prelude.{◌≡◌};
ghost use Rattle.qn_member.specs.Maker.{alone, enough_of};

use crate::change::Change;
use crate::told::Told;
use qn_base::{Mask, Rank, Said, View};
use qn_model::{Nodes, Settings};
use std::marker::Model;

/// The view maker of a running node (this project's profile). Ticks are milliseconds of the node's clock.
#[derive(Drop)]
pub struct Member {
    pub(crate) nodes: Nodes,
    pub(crate) me: Rank,
    pub(crate) loop_ms: u64,
    /// The votes that a side needs of its own nodes; 0 with two_node.
    pub(crate) enough: u64,
    /// By rank, the tick of the last Hello since its last farewell.
    pub(crate) hellos: [Option<u64>; 32],
    /// By rank, what the last Hello says.
    pub(crate) said: [Option<Said>; 32],
    /// The nodes of which it is forgotten whom they follow.
    pub(crate) forgotten: Mask,
    /// By rank, the view that was announced last.
    pub(crate) announced: [Option<View>; 32],
    /// The present view.
    pub(crate) view: Option<View>,
    /// The greatest id, without its name, of a view that the node has had or was announced.
    pub(crate) greatest: u64,
    /// The tick of the first look.
    pub(crate) first_look: Option<u64>,
    /// The present change, where the last look found one and gave no view.
    pub(crate) change: Option<Change>,
    /// By rank, the first of the looks in a row that found it otherwise than the present view.
    pub(crate) differs: [Option<u64>; 32],
    /// The nodes that the last look saw.
    pub(crate) seen: Mask,
    /// What a Hello says after the last look.
    pub(crate) says: Said,
    /// The tick of the last Hello of the beat.
    pub(crate) last_hello: Option<u64>,
    /// What was sent last.
    pub(crate) told: Option<Told>,
}

impl Model for Member {
    ghost use Rattle.qn_member.specs.Maker.{Maker, KeepsConfigured};

    ghost Value = { Maker };

    ghost view = { λ m.
        record {
          nodes = m.nodes;
          me = m.me.0;
          loop_ms = m.loop_ms;
          enough = m.enough;
          hellos = m.hellos;
          said = m.said;
          forgotten = m.forgotten;
          announced = m.announced;
          view = m.view;
          greatest = m.greatest;
          first_look = m.first_look;
          change = m.change;
          differs = m.differs;
          seen = m.seen;
          says = m.says;
          last_hello = m.last_hello;
          told = m.told;
        } };

    ghost invariant = { λ m. KeepsConfigured m.nodes m.announced };
}

/// What a node says before its first look: it hears itself, where it has a rank.
fn alone(me: Rank) -> Said
    ensures { result ≡ alone me.0 }
{
    Said {
        hears: if me.0 < 32 { Mask(1 << me.0) } else { Mask(0) },
        follows: None,
        able: false,
    }
}

/// The votes that a side needs of its own nodes.
fn enough(settings: &Settings) -> u64
    ensures { result ≡ enough_of settings.now }
{
    if settings.two_node {
        return 0;
    }
    let device = match settings.device {
        Some(device) if !settings.last_man_standing => u64::from(device.votes),
        Some(_) | None => 0,
    };
    settings
        .quorum(settings.expected)
        .saturating_sub(device)
        .max(1)
}

impl Member {
    ghost use Rattle.std.specs.Prelude.{◌≡◌, ◌<◌, ◌≤◌, ◌↔◌, ℕ, IfSome, IsNone, IsTrue, true, length, nat_le};
    ghost use Rattle.std.specs.Option.{option_map};
    ghost use Rattle.qn_base.specs.Members.{is_member};
    ghost use Rattle.qn_member.specs.Maker.{seeing, after_tick, first_maker, has_configured, installed, is_configured, least_of, three_loops_after, view_at};

    /// The view maker of the node of that rank, which knows nothing of the others yet. `loop_ms` is the loop's time of its
    /// image, in milliseconds.
    pub fn new(settings: &Settings, me: Rank, loop_ms: u64) -> Self
        ensures { result ≡ first_maker settings.now me.0 loop_ms }
    {
        Member {
            nodes: settings.nodes.copy(),
            me,
            loop_ms,
            enough: enough(settings),
            hellos: [None; 32],
            said: [None; 32],
            forgotten: Mask(0),
            announced: [None; 32],
            view: None,
            greatest: 0,
            first_look: None,
            change: None,
            differs: [None; 32],
            seen: Mask(0),
            says: alone(me),
            last_hello: None,
            told: None,
        }
    }

    /// A look at a tick: the view that is installed, or None where the present one stays.
    #[tactic(auto, unfolding(crate::specs::Maker::view_at, crate::specs::Maker::after_tick))]
    pub fn on_tick(&mut self, tick: u64) -> Option<View>
        ensures view { result ≡ view_at tick self.old }
        ensures after { self.new ≡ after_tick tick self.old }
        ensures stays { IsNone result ↔ (self.new.view ≡ self.old.view) }
        ensures contains { IfSome result (λ view. is_member view.members self.old.me ≡ true) }
        ensures configured { IfSome result (λ view. (rank : ℕ)
            → is_member view.members rank ≡ true
            → rank < length self.old.nodes) }
    {
        self.see(tick);
        self.note(tick);
        let next = self.next_view(tick);
        self.install(next);
        next
    }

    /// Whom a look sees, and of whom it is forgotten then whom they follow.
    pub(crate) fn see(&mut self, tick: u64)
        ensures exact { self.new ≡ seeing tick self.old }
        ensures configured { has_configured self.new.nodes self.new.seen ≡ true }
    {
        let visible = self.visible_nodes(tick);
        self.forgotten = self.forgotten_nodes(visible);
        self.seen = visible;
    }

    /// How many nodes are configured.
    pub(crate) fn count(&self) -> u8
        ensures value { result ≡ length self.now.nodes }
        ensures few { result ≤ 32 }
    {
        self.nodes.len() as u8
    }

    pub(crate) fn is_configured(&self, rank: Rank) -> bool
        ensures exact { result ≡ is_configured self.now rank.0 }
        ensures below { IsTrue result → rank.0 < 32 }
    {
        rank.0 < self.count()
    }

    pub(crate) fn has_configured(&self, members: Mask) -> bool
        ensures { result ≡ has_configured self.now.nodes members }
    {
        u64::from(members.0) < 1 << self.count()
    }

    /// The node of least rank among these.
    pub(crate) fn least_of(&self, members: Mask) -> Option<Rank>
        ensures least { option_map (λ rank. rank.0) result ≡ least_of self.now members }
        ensures member { IfSome result (λ rank. is_member members rank.0 ≡ true) }
        ensures below { IfSome result (λ rank. rank.0 < 32) }
    {
        members.first(self.count())
    }

    /// Whether a tick is at most three loops after another.
    pub(crate) fn is_recent(&self, tick: u64, heard: u64) -> bool
        ensures { result ≡ nat_le tick (three_loops_after self.now heard) }
    {
        tick.saturating_sub(heard) <= self.loop_ms.saturating_mul(3)
    }

    /// Whether a tick is three loops or more after another.
    pub(crate) fn is_past(&self, tick: u64, first: u64) -> bool
        ensures { result ≡ nat_le (three_loops_after self.now first) tick }
    {
        tick >= first && (tick - first) / 3 >= self.loop_ms
    }
}
