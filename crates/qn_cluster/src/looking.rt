//! What a cluster shows of its nodes, and what is reported of an event.
ghost use Rattle.std.specs.Prelude.{◌≡◌, false};
ghost use Rattle.qn_model.specs.Steps.{answer_off, touched};
ghost use Rattle.qn_cluster.specs.Seen.{blank_report};

use crate::cluster::Cluster;
use crate::seat::Seat;
use qn_base::{Mask, Rank, View};
use qn_model::{Answer, Event, Outs, Phase, Report, Sent, Settings, Why};

impl Seat {
    ghost use Rattle.std.specs.Prelude.{◌≡◌, ◌&&◌, ℕ};
    ghost use Rattle.qn_model.specs.declared.configuration.Settings.{Settings};
    ghost use Rattle.qn_model.specs.Holding.{holds};
    ghost use Rattle.qn_model.specs.Moments.{Running};
    ghost use Rattle.qn_model.specs.Phases.{is_up, phase};
    ghost use Rattle.qn_model.specs.Steps.{answer_now, why_now};
    ghost use Rattle.qn_cluster.specs.Seats.{SeatFor};
    ghost use Rattle.qn_cluster.specs.Seen.{phase_now, polls_now, tick_now};

    /// Whether the node is running and holds the resource.
    pub(crate) fn holds(&self) -> bool
        ensures value { result ≡ (self.now.on && self.now.held) }
        ensures exact { (s : Settings) (me : ℕ) (node : Running)
            → SeatFor self.now s me node
            → result ≡ (node.on && holds node.log) }
    {
        self.on && self.held
    }

    /// The count of votes at the node's present tick; that of the empty history where it is off.
    #[inline(always)]
    fn answer(&self, settings: &Settings) -> Answer
        ensures { (me : ℕ) (node : Running)
            → SeatFor self.now settings.now me node
            → result ≡ answer_now settings.now node }
    {
        if self.on {
            self.node.answer(self.tick())
        } else {
            answer_off(settings)
        }
    }

    /// The first condition that blocks a start at the node's present tick, where the count of votes is known; Down where
    /// the node is off.
    #[inline(always)]
    fn why(&self, count: Answer) -> Why
        ensures { (s : Settings) (me : ℕ) (node : Running)
            → SeatFor self.now s me node
            → count ≡ answer_now s node
            → result ≡ why_now s me node }
    {
        if self.on {
            self.node.why_with(self.tick(), count)
        } else {
            Why::Down
        }
    }

    /// The phase of the node; Gone where it is off.
    fn phase(&self) -> Phase
        ensures { (s : Settings) (me : ℕ) (node : Running)
            → SeatFor self.now s me node
            → result ≡ phase_now s node }
    {
        if self.on {
            self.node.phase()
        } else {
            Phase::Gone
        }
    }

    /// The tick of the node's clock; None where it is off.
    fn tick_now(&self) -> Option<u64>
        ensures { (s : Settings) (me : ℕ) (node : Running)
            → SeatFor self.now s me node
            → result ≡ tick_now node }
    {
        if self.on { Some(self.tick()) } else { None }
    }

    /// The node's tick, incarnation, install number and view; None where it is not up or has no view.
    fn polls(&self) -> Option<(u64, u64, u64, View)>
        ensures { (s : Settings) (me : ℕ) (node : Running)
            → SeatFor self.now s me node
            → result ≡ polls_now s node }
    {
        if !self.is_up() {
            return None;
        }
        let present = self.node.present()?;
        let incarnation = self.node.incarnation().unwrap_or(0);
        Some((self.tick(), incarnation, present.0, present.1))
    }

    /// Whether the node is up.
    fn is_up(&self) -> bool
        ensures { (s : Settings) (me : ℕ) (node : Running)
            → SeatFor self.now s me node
            → result ≡ (node.on && is_up (phase s node.log)) }
    {
        self.on && matches!(self.node.phase(), Phase::Up)
    }
}

impl Cluster {
    ghost use Rattle.std.specs.Prelude.{◌≡◌, ◌<◌, ◌≤◌, ℕ, List, [], IfSome, length, slice_get, true};
    ghost use Rattle.qn_model.specs.Moments.{Moment, is_holder, node, packets};
    ghost use Rattle.qn_model.specs.Rules.{is_well_formed};
    ghost use Rattle.qn_model.specs.Steps.{answer_now, holders, outs_after, report, why_now};
    ghost use Rattle.qn_model.specs.World.{World};
    ghost use Rattle.qn_cluster.specs.Seen.{IsConfigured, answer_shown, phase_now, polls_now, report_at, tick_now, why_shown};
    ghost use Rattle.qn_cluster.specs.Standing.{ClusterFor, IsStanding};

    /// The nodes that hold the resource.
    pub fn holders(&self) -> Mask
        requires { length self.now.seats ≤ 32 }
        ensures { (d : World) → ClusterFor self.now d.moments
            → result ≡ holders self.now.settings d }
    {
        self.seats.holders()
    }

    /// Whether the node of a rank holds the resource.
    pub fn holds(&self, i: Rank) -> bool
        requires { i.0 < length self.now.seats }
        ensures { (moments : List Moment)
            → ClusterFor self.now moments
            → result ≡ is_holder self.now.settings moments i.0 }
    {
        self.seat(i).holds()
    }

    /// The phase of the node of a rank; Gone where it is off.
    pub fn phase(&self, i: Rank) -> Phase
        requires { i.0 < length self.now.seats }
        ensures { (moments : List Moment)
            → ClusterFor self.now moments
            → result ≡ phase_now self.now.settings (node self.now.settings i.0 moments) }
    {
        self.seat(i).phase()
    }

    /// The tick of the clock of the node of a rank, in milliseconds; None where it is off.
    pub fn tick(&self, i: Rank) -> Option<u64>
        requires { i.0 < length self.now.seats }
        ensures { (moments : List Moment)
            → ClusterFor self.now moments
            → result ≡ tick_now (node self.now.settings i.0 moments) }
    {
        self.seat(i).tick_now()
    }

    /// The tick, the incarnation, the install number and the view of the node of a rank; None where it is not up or has no
    /// view.
    pub fn polls(&self, i: Rank) -> Option<(u64, u64, u64, View)>
        requires { i.0 < length self.now.seats }
        ensures { (moments : List Moment)
            → ClusterFor self.now moments
            → result ≡ polls_now self.now.settings (node self.now.settings i.0 moments) }
    {
        self.seat(i).polls()
    }

    /// The count of votes of the node of a rank at its present tick; that of the empty history where it is off.
    #[inline(always)]
    pub fn answer(&self, i: Rank) -> Answer
        requires { i.0 < length self.now.seats }
        ensures { (moments : List Moment)
            → ClusterFor self.now moments
            → result ≡ answer_now self.now.settings (node self.now.settings i.0 moments) }
    {
        self.seat(i).answer(&self.settings)
    }

    /// The first condition that blocks a start of the node of a rank at its present tick, where its count of votes is known;
    /// Down where it is off.
    #[inline(always)]
    pub fn why(&self, i: Rank, count: Answer) -> Why
        requires { i.0 < length self.now.seats }
        ensures { (moments : List Moment)
            → ClusterFor self.now moments
            → count ≡ answer_now self.now.settings (node self.now.settings i.0 moments)
            → result ≡ why_now self.now.settings i.0 (node self.now.settings i.0 moments) }
    {
        self.seat(i).why(count)
    }

    /// How many packets were ever sent.
    pub fn packets(&self) -> u64
        ensures { (moments : List Moment)
            → ClusterFor self.now moments
            → result ≡ length (packets self.now.settings moments) }
    {
        self.packets.len() as u64
    }

    /// The packet of that number, from 0.
    pub fn packet(&self, number: u64) -> Option<Sent>
        ensures exact { (moments : List Moment)
            → ClusterFor self.now moments
            → result ≡ slice_get (packets self.now.settings moments) number }
        ensures configured { (moments : List Moment)
            → ClusterFor self.now moments
            → IfSome result (λ sent. sent.to.0 < length self.now.settings.nodes) }
    {
        self.packets.get(number as usize)
    }

    /// Fills in what is reported of an event once its step is made, beside the outputs that it gave.
    #[inline(always)]
    pub fn fill(&self, event: &Event, into: &mut Report)
        requires formed { is_well_formed self.now.settings event.now ≡ true }
        requires standing { IsStanding self.now }
        ensures { (d : World)
            → ClusterFor self.now d.moments
            → into.old.outs ≡ outs_after self.now.settings event.now d
            → into.new ≡ report self.now.settings event.now d }
    {
        self.fill_of(touched(event), into);
    }

    /// Fills in what is reported where nothing came out of a node, or no node was touched.
    pub fn fill_quiet(&self, node: Option<Rank>, into: &mut Report)
        requires standing { IsStanding self.now }
        requires configured { IsConfigured self.now.settings node }
        ensures { (d : World)
            → ClusterFor self.now d.moments
            → into.new ≡ report_at self.now.settings node [] d }
    {
        into.outs.clear();
        self.fill_of(node, into);
    }

    /// Fills in what is reported of a node, if one was touched, beside the outputs.
    #[inline(always)]
    fn fill_of(&self, touched: Option<Rank>, into: &mut Report)
        requires standing { IsStanding self.now }
        requires configured { IsConfigured self.now.settings touched }
        ensures { (d : World)
            → ClusterFor self.now d.moments
            → into.new ≡ report_at self.now.settings touched into.old.outs d }
    {
        into.time = self.time;
        into.touched = touched;
        into.holders = self.holders();
        into.answer = self.answer_of(touched);
        into.why = self.why_of(touched, into.answer);
    }

    /// The count of votes of a node at its present tick; that of a node that is off where there is none.
    #[inline(always)]
    fn answer_of(&self, node: Option<Rank>) -> Answer
        requires standing { IsStanding self.now }
        requires configured { IsConfigured self.now.settings node }
        ensures { (d : World)
            → ClusterFor self.now d.moments
            → result ≡ answer_shown self.now.settings node d.moments }
    {
        match node {
            Some(i) => self.answer(i),
            None => answer_off(&self.settings),
        }
    }

    /// The first condition that blocks a start at a node's present tick, where its count of votes is known; Down where there
    /// is none.
    #[inline(always)]
    fn why_of(&self, node: Option<Rank>, count: Answer) -> Why
        requires standing { IsStanding self.now }
        requires configured { IsConfigured self.now.settings node }
        ensures { (d : World)
            → ClusterFor self.now d.moments
            → count ≡ answer_shown self.now.settings node d.moments
            → result ≡ why_shown self.now.settings node d.moments }
    {
        match node {
            Some(i) => self.why(i, count),
            None => Why::Down,
        }
    }
}

/// The node of an event; none at a pass.
pub fn touched(event: &Event) -> Option<Rank>
    ensures { result ≡ touched event.now }
{
    match event {
        Event::Pass { .. } => None,
        Event::Boot(rank, _)
        | Event::BootClean(rank, _)
        | Event::Crash(rank)
        | Event::Land(rank)
        | Event::Done(rank)
        | Event::Fail(rank)
        | Event::Late(rank, _)
        | Event::View(rank, _)
        | Event::Deliver(rank, _)
        | Event::Device(rank, _)
        | Event::Tick(rank)
        | Event::Stopped(rank)
        | Event::Unstopped(rank)
        | Event::Leave(rank)
        | Event::Feed(rank)
        | Event::Operator(rank, _) => Some(*rank),
    }
}

/// A report of nothing, to write the first report over.
pub fn blank_report() -> Report
    ensures { result ≡ blank_report }
{
    Report {
        time: 0,
        touched: None,
        outs: Outs::new(),
        holders: Mask(0),
        answer: Answer {
            quorate: false,
            votes: 0,
            quorum: 0,
            expected: 0,
            released: false,
        },
        why: Why::Down,
    }
}

/// The count of votes of the empty history.
fn answer_off(settings: &Settings) -> Answer
    ensures { result ≡ answer_off settings.now }
{
    Answer {
        quorate: false,
        votes: 0,
        quorum: settings.quorum(settings.expected),
        expected: settings.expected,
        released: !settings.wait_for_all,
    }
}
