//! Draws the events of a soak from a seed, each allowed in its turn.
use crate::choice::Choice;
use crate::drawn_events::{bit_of, is_feed_due, receiver, write_incident, write_view};
use crate::event_places::EventPlaces;
use crate::in_place::keep_or_replace;
use qn_base::Rank;
use qn_model::{Clocks, Event};
use qn_world::{Pending, World};
use std::marker::Model;

/// Draws the events of a soak from a seed, one after the other, each one allowed in its turn.
#[derive(Drop)]
pub struct Gen {
    state: u64,
}

impl Model for Gen {
    ghost use Rattle.std.specs.Prelude.{ℕ};

    ghost Value = { ℕ };

    ghost view = { λ g. g.state };
}

impl Gen {
    ghost use Rattle.std.specs.Prelude.{◌≡◌, ◌<◌, ◌≤◌, ◌+◌, [], true, None, length};
    ghost use Rattle.qn_base.specs.declared.limits.TheConstants.{LATEST_TIME};
    ghost use Rattle.qn_model.specs.World.{World as WorldBefore};
    ghost use Rattle.qn_model.specs.Moments.{packets};
    ghost use Rattle.qn_model.specs.Rules.{is_well_formed, refusal};
    ghost use Rattle.qn_world.specs.Standing.{WorldFor};
    ghost use Rattle.qn_replay.specs.Draws.{draw_at, next_state};
    ghost use Rattle.qn_replay.specs.Generator.{candidate, chosen_event, clocks_of, delivery, next_event, next_step, pass_at, soak_settings, soak_timing, view_at, with_clock};

    /// A generator whose state begins as the seed.
    pub fn new(seed: u64) -> Gen
        ensures { result ≡ seed }
    {
        Gen { state: seed }
    }

    /// The next event of a world with the settings and the times of a soak: well formed, and allowed.
    pub fn next(&mut self, world: &World) -> Event
        requires settings { world.now.settings ≡ soak_settings }
        requires timing { world.now.timing ≡ soak_timing }
        requires early { world.now.time ≤ LATEST_TIME }
        ensures drawn { (d : WorldBefore) → WorldFor world.now d
            → record { event = result; state = self.new } ≡ next_event d self.old }
        ensures formed { is_well_formed soak_settings result ≡ true }
        ensures allowed { (d : WorldBefore) → WorldFor world.now d
            → refusal soak_settings soak_timing result d ≡ None }
    {
        let mut places = EventPlaces::new();
        self.next_into(world, &mut places);
        places.into_event()
    }

    /// The same as `next`, with the event written over one of its kind.
    pub fn next_into(&mut self, world: &World, into: &mut EventPlaces)
        requires settings { world.now.settings ≡ soak_settings }
        requires timing { world.now.timing ≡ soak_timing }
        requires early { world.now.time ≤ LATEST_TIME }
        ensures drawn { (d : WorldBefore) → WorldFor world.now d
            → record { event = into.new; state = self.new } ≡ next_event d self.old }
        ensures formed { is_well_formed soak_settings into.new ≡ true }
        ensures allowed { (d : WorldBefore) → WorldFor world.now d
            → refusal soak_settings soak_timing into.new d ≡ None }
    {
        self.candidate(world, into);
        keep_or_replace(into, world);
    }

    /// The candidate for the next event.
    fn candidate(&mut self, world: &World, into: &mut EventPlaces)
        requires settings { world.now.settings ≡ soak_settings }
        ensures drawn { (d : WorldBefore) → WorldFor world.now d
            → record { event = into.new; state = self.new } ≡ candidate d self.old }
        ensures formed { is_well_formed soak_settings into.new ≡ true }
    {
        let choice = Choice::of(self.draw() % 16);
        let rank = Rank((self.draw() % 3) as u8);
        self.chosen_event(world, choice, rank, into);
    }

    /// What a choice comes to.
    fn chosen_event(&mut self, world: &World, choice: Choice, rank: Rank, into: &mut EventPlaces)
        requires settings { world.now.settings ≡ soak_settings }
        requires rank { rank.0 < 3 }
        ensures drawn { (d : WorldBefore) → WorldFor world.now d
            → record { event = into.new; state = self.new } ≡ chosen_event d choice rank self.old }
        ensures formed { is_well_formed soak_settings into.new ≡ true }
    {
        match choice {
            Choice::Step => self.next_step(world.pending(rank), world.time(), rank, into),
            Choice::Pass => self.pass_of(world, into),
            Choice::View => self.view(rank, into),
            Choice::Delivery => self.delivery(world, rank, into),
            Choice::Device => into.set_device(rank, true),
            Choice::Incident => write_incident(self.draw() % 8, rank, into),
        }
    }

    /// The next step of a node.
    #[tactic(auto, unfolding(crate::specs::Generator::next_step, qn_model::specs::Rules::is_well_formed))]
    fn next_step(&mut self, pending: Pending, now: u64, rank: Rank, into: &mut EventPlaces)
        requires rank { rank.0 < 3 }
        ensures drawn { record { event = into.new; state = self.new }
            ≡ next_step pending now rank self.old }
        ensures formed { is_well_formed soak_settings into.new ≡ true }
    {
        if !pending.running {
            let base = self.draw() % 1_000_000;
            into.set_other(Event::Boot(rank, base));
        } else if is_feed_due(now, pending) {
            into.set_feed(rank);
        } else if pending.out && !pending.landed {
            into.set_land(rank);
        } else if pending.landed {
            into.set_done(rank);
        } else if pending.stop_due {
            into.set_other(Event::Stopped(rank));
        } else {
            into.set_tick(rank);
        }
    }

    /// Time passes for the nodes of a world.
    fn pass_of(&mut self, world: &World, into: &mut EventPlaces)
        requires { world.now.settings ≡ soak_settings }
        ensures drawn { (d : WorldBefore) → WorldFor world.now d
            → record { event = into.new; state = self.new }
            ≡ chosen_event d Choice.Pass (record { 0 = 0 }) self.old }
        ensures formed { is_well_formed soak_settings into.new ≡ true }
    {
        let first = world.pending(Rank(0));
        let second = world.pending(Rank(1));
        let third = world.pending(Rank(2));
        into.set_pass(self, first.running, second.running, third.running);
    }

    /// A pass, with a clock for each of the nodes that run, over an event.
    pub(crate) fn pass(&mut self, first: bool, second: bool, third: bool, into: &mut Event)
        ensures drawn { record { event = into.new; state = self.new }
            ≡ pass_at first second third (next_state self.old) }
        ensures formed { is_well_formed soak_settings into.new ≡ true }
    {
        let dt = 1 + self.draw() % 400;
        if let Event::Pass { dt: length, clocks } = into {
            *length = dt;
            clocks.clear();
            self.add_clocks(clocks, dt, first, second, third);
        } else {
            let mut clocks = Clocks::new();
            self.add_clocks(&mut clocks, dt, first, second, third);
            *into = Event::Pass { dt, clocks };
        }
    }

    /// Adds a clock for each of the nodes that run.
    fn add_clocks(&mut self, clocks: &mut Clocks, dt: u64, first: bool, second: bool, third: bool)
        requires none { clocks.old ≡ [] }
        requires short { dt ≤ 400 }
        ensures { record { clocks = clocks.new; state = self.new }
            ≡ clocks_of dt first second third self.old }
    {
        self.add_clock(clocks, dt, Rank(0), first);
        self.add_clock(clocks, dt, Rank(1), second);
        self.add_clock(clocks, dt, Rank(2), third);
    }

    /// Adds the clock of a node where it runs.
    #[tactic(auto, unfolding(crate::specs::Generator::with_clock))]
    fn add_clock(&mut self, clocks: &mut Clocks, dt: u64, rank: Rank, running: bool)
        requires room { length clocks.old < 30 }
        requires short { dt ≤ 400 }
        ensures drawn { record { clocks = clocks.new; state = self.new }
            ≡ with_clock dt rank.0 running (record { clocks = clocks.old; state = self.old }) }
        ensures len { length clocks.new ≤ length clocks.old + 1 }
    {
        if running {
            let advance = 99 * dt + self.draw() % (2 * dt + 1);
            clocks.push((rank, advance));
        }
    }

    /// A view: of all nodes, of this one alone, or of some nodes and this one.
    #[tactic(auto, unfolding(crate::specs::Generator::view_at))]
    fn view(&mut self, rank: Rank, into: &mut EventPlaces)
        requires { rank.0 < 3 }
        ensures drawn { record { event = into.new; state = self.new }
            ≡ view_at rank (next_state self.old) }
        ensures formed { is_well_formed soak_settings into.new ≡ true }
    {
        let kind = self.draw() % 3;
        if kind == 0 {
            write_view(rank, 7, into);
        } else if kind == 1 {
            write_view(rank, bit_of(rank), into);
        } else {
            let others = (self.draw() % 8) as u32;
            write_view(rank, others | bit_of(rank), into);
        }
    }

    /// One of the last eight packets reaches its receiver, where one was sent.
    #[tactic(auto, unfolding(crate::specs::Generator::delivery, qn_model::specs::Rules::is_well_formed))]
    fn delivery(&mut self, world: &World, rank: Rank, into: &mut EventPlaces)
        requires settings { world.now.settings ≡ soak_settings }
        requires rank { rank.0 < 3 }
        ensures drawn { (d : WorldBefore) → WorldFor world.now d
            → record { event = into.new; state = self.new }
            ≡ delivery rank (length (packets soak_settings d.moments)) d self.old }
        ensures formed { is_well_formed soak_settings into.new ≡ true }
    {
        let count = world.packets();
        if count == 0 {
            into.set_tick(rank);
            return;
        }
        let number = count - 1 - self.draw() % count.min(8);
        let to = receiver(world, number, rank);
        into.set_deliver(to, number);
    }

    /// One more draw: the upper 31 bits of the new state.
    #[tactic(auto, unfolding(crate::specs::Draws::next_state, crate::specs::Draws::draw_at))]
    fn draw(&mut self) -> u64
        ensures state { self.new ≡ next_state self.old }
        ensures value { result ≡ draw_at (next_state self.old) }
    {
        let product = u128::from(self.state) * 6_364_136_223_846_793_005;
        self.state = ((product + 1_442_695_040_888_963_407) % 18_446_744_073_709_551_616) as u64;
        self.state / 8_589_934_592
    }
}
