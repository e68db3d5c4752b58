//! What a world beside an arbiter keeps, and what it shows.
ghost use Rattle.std.specs.Prelude.{◌≡◌, ◌++◌, ◌∷◌, [], OnErr, OnOk, slice_get};
ghost use Rattle.qn_safety.specs.ArbiterSteps.{device_event};

use crate::pollers::Pollers;
use crate::running::RunningArbiter;
use qn_base::{Mask, NoMemory, Rank};
use qn_model::{Event, Settings, Timing};
use qn_polls::Standing;
use qn_safety::{ArbiterReport, Lease, Poll, Reply, Said};
use qn_world::World;
use std::alloc::Global;
use std::marker::Model;

// A poll and a reply take at most 64 bytes each.
const _: () = prove!(size_of::<Poll>() <= 64);

const _: () = prove!(size_of::<Reply>() <= 64);

/// Puts an item at the end of a list, unless there is no memory for it.
pub(crate) fn append<T: Drop>(items: &mut Vec<T>, item: T) -> Result<(), NoMemory>
    ensures ok { OnOk result (items.new.items ≡ items.old.items ++ item ∷ []) }
    ensures err { OnErr result (items.new.items ≡ items.old.items) }
{
    match items.push(item) {
        Ok(()) => Ok(()),
        Err(_) => Err(NoMemory),
    }
}

/// The item of that number, from 0.
fn item_at<T: Copy + Drop>(items: &[T], number: u64) -> Option<T>
    ensures { result ≡ slice_get items.now number }
{
    items.get(number as usize).copied()
}

/// A node takes an answer as the device's, and no answer as a tick.
fn device_event(rank: Rank, answer: Option<bool>) -> Event
    ensures { result ≡ device_event rank answer }
{
    match answer {
        Some(agrees) => Event::Device(rank, agrees),
        None => Event::Tick(rank),
    }
}

/// The nodes with their image, the two times of the leased vote, the arbiter where it runs, the pollers, all polls and
/// replies ever sent, and how many events can still be applied.
#[derive(Drop)]
pub(crate) struct State {
    pub(crate) world: World,
    pub(crate) lease: Lease,
    pub(crate) arbiter: Option<RunningArbiter>,
    pub(crate) pollers: Pollers,
    pub(crate) polls: Vec<Poll>,
    pub(crate) replies: Vec<Reply>,
    pub(crate) steps: u64,
}

impl Model for State {
    ghost use Rattle.qn_arbiter.specs.Whole.{Kept};

    ghost Value = { Kept };

    ghost view = { λ w. record {
      world = w.world;
      lease = w.lease;
      arbiter = w.arbiter;
      pollers = w.pollers;
      polls = w.polls.items;
      replies = w.replies.items;
      steps = w.steps;
    } };
}

impl State {
    ghost use Rattle.std.specs.Prelude.{◌≡◌, ◌<◌, ◌≤◌, ℕ, true, [], Some, IfOk, IfSome, IsTrue, length};
    ghost use Rattle.std.specs.Option.{option_map};
    ghost use Rattle.qn_polls.specs.Poller.{standing_of};
    ghost use Rattle.qn_base.specs.Members.{is_member};
    ghost use Rattle.qn_safety.specs.declared.arbiter_event.ArbiterEvent.TheVariants as beside;
    ghost use Rattle.qn_safety.specs.declared.lease.Lease.{Lease};
    ghost use Rattle.qn_safety.specs.ArbiterRules.{may_reply};
    ghost use Rattle.qn_safety.specs.ArbiterSteps.{played, quiet_report};
    ghost use Rattle.qn_safety.specs.ArbiterWorld.{ArbiterWorld, first_arbiter_world, poll_at, reply_at, standing_at};
    ghost use Rattle.qn_model.specs.Settings.{IsValid};
    ghost use Rattle.qn_model.specs.Steps.{holders};
    ghost use Rattle.qn_model.specs.Timing.{is_safe};
    ghost use Rattle.qn_world.specs.Seen.{IsConfigured};
    ghost use Rattle.qn_arbiter.specs.Standing.{IsStanding, KeptFor};

    /// The first world.
    pub(crate) fn first(
        alloc: Global,
        settings: Settings,
        timing: Timing,
        lease: Lease,
    ) -> Result<State, NoMemory>
        requires valid { IsValid settings }
        requires safe { is_safe timing ≡ true }
        ensures stands { IfOk result (λ w. KeptFor w (first_arbiter_world lease)) }
        ensures settings { IfOk result (λ w. w.world.settings ≡ settings) }
        ensures timing { IfOk result (λ w. w.world.timing ≡ timing) }
        ensures lease { IfOk result (λ w. w.lease ≡ lease) }
        ensures steps { IfOk result (λ w. w.steps ≡ u64.MAX) }
        ensures room { IfOk result (λ w. w.world.steps ≡ u64.MAX) }
    {
        let world = World::new(alloc, settings, timing)?;
        Ok(State {
            world,
            lease,
            arbiter: None,
            pollers: Pollers::new(lease.limit),
            polls: Vec::new(alloc),
            replies: Vec::new(alloc),
            steps: u64::MAX,
        })
    }

    /// What the node of a rank shows in a poll; None where it is not up, or has no view.
    pub(crate) fn standing(&self, i: Rank) -> Option<Standing>
        requires { i.0 < length self.now.world.settings.nodes }
        ensures { (d : ArbiterWorld)
            → KeptFor self.now d
            → option_map standing_of result ≡ standing_at self.now.world.settings i.0 d }
    {
        let (tick, incarnation, install, view) = self.world.polls(i)?;
        Some(Standing {
            tick,
            incarnation,
            install,
            view,
        })
    }

    /// The poll of that number, from 0.
    pub(crate) fn poll_at(&self, number: u64) -> Option<Poll>
        ensures exact { (d : ArbiterWorld) → KeptFor self.now d → result ≡ poll_at number d }
        ensures few { (d : ArbiterWorld)
            → KeptFor self.now d
            → IfSome result (λ poll. poll.from.0 < 32) }
    {
        item_at(self.polls.as_slice(), number)
    }

    /// The reply of that number, from 0.
    pub(crate) fn reply_at(&self, number: u64) -> Option<Reply>
        ensures exact { (d : ArbiterWorld) → KeptFor self.now d → result ≡ reply_at number d }
        ensures configured { (d : ArbiterWorld)
            → KeptFor self.now d
            → IfSome result (λ reply. reply.to.0 < length self.now.world.settings.nodes) }
    {
        item_at(self.replies.as_slice(), number)
    }

    /// The event of the nodes that the reply of that number is, where its node runs.
    pub(crate) fn reply_event(&self, number: u64) -> Option<Event>
        requires { IsStanding self.now }
        ensures { (d : ArbiterWorld)
            → KeptFor self.now d
            → may_reply self.now.world.settings number d ≡ true
            → result ≡ played self.now.world.settings (beside.Reply number) d }
    {
        let reply = self.reply_at(number)?;
        let tick = self.world.tick(reply.to)?;
        let answer = self.pollers.answer(reply.to, tick, &reply);
        Some(device_event(reply.to, answer))
    }

    /// Writes what is reported where the nodes meet nothing, of the rank that polls, if one does. At most one node holds, as
    /// `World::holders` says.
    pub(crate) fn report_quiet(&self, node: Option<Rank>, said: Said, into: &mut ArbiterReport)
        requires { IsConfigured self.now.world.settings node }
        ensures said { into.new.said ≡ said }
        ensures outs { IsStanding self.now → into.new.report.outs ≡ [] }
        ensures exact { (d : ArbiterWorld)
            → KeptFor self.now d
            → into.new.report ≡ quiet_report self.now.world.settings node d.world }
        ensures one_holder { IsStanding self.now
            → (i j : ℕ)
            → IsTrue (is_member into.new.report.holders i)
            → IsTrue (is_member into.new.report.holders j)
            → i ≡ j }
    {
        self.world.report_quiet(node, &mut into.report);
        into.report.holders = self.world.holders();
        into.said = said;
    }

    /// The nodes that hold the resource.
    pub(crate) fn holders(&self) -> Mask
        ensures exact { (d : ArbiterWorld)
            → KeptFor self.now d
            → result ≡ holders self.now.world.settings d.world }
        ensures one_holder { (i j : ℕ)
            → IsTrue (is_member result i)
            → IsTrue (is_member result j)
            → i ≡ j }
    {
        self.world.holders()
    }
}
