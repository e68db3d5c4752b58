//! One configured node of the cluster, running or off.
use crate::outputs::is_gone;
use qn_base::Rank;
use qn_model::{DiskOp, Entry, Outs, Phase, Settings, What};
use qn_node::Node;

/// A node of the cluster, running or off.
#[derive(Drop)]
pub(crate) struct Seat {
    pub(crate) on: bool,
    pub(crate) held: bool,
    pub(crate) node: Node,
    pub(crate) clock: u64,
    pub(crate) fed: u64,
    pub(crate) decided: Option<u64>,
    pub(crate) op: Option<DiskOp>,
    pub(crate) stop_due: bool,
}

impl Seat {
    ghost use Rattle.std.specs.Prelude.{◌≡◌, ◌<◌, ◌+◌, ◌≤◌, ℕ, true, false, not, Some, if◌then◌else◌, length, All};
    ghost use Rattle.qn_model.specs.declared.configuration.Settings.{Settings};
    ghost use Rattle.qn_model.specs.Moments.{Running, booted, handed, has_feed, tick_of};
    ghost use Rattle.qn_model.specs.NodeOutputs.{newest_outs};
    ghost use Rattle.qn_model.specs.Phases.{is_live, phase};
    ghost use Rattle.qn_node.specs.Node.{phase_of, steps_of};
    ghost use Rattle.qn_node.specs.Outputs.{IsNodeOutput};
    ghost use Rattle.qn_cluster.specs.Outputs.{op_with, stop_with};
    ghost use Rattle.qn_cluster.specs.Seats.{BootedSeat, HandedSeat, IsFresh, SeatFor};

    /// The seat of a node that never ran.
    pub(crate) fn off(settings: &Settings, me: Rank) -> Seat
        requires { me.0 < length settings.now.nodes }
        ensures { IsFresh result }
    {
        Seat {
            on: false,
            held: false,
            node: Node::new(settings, me),
            clock: 0,
            fed: 0,
            decided: None,
            op: None,
            stop_due: false,
        }
    }

    /// The tick of the node's clock, in milliseconds.
    pub(crate) fn tick(&self) -> u64
        ensures { result ≡ tick_of self.now.clock }
    {
        self.clock / 100
    }

    /// The node boots: a new history, which begins with Begin, or with BeginClean where it is a clean start.
    pub(crate) fn boot(
        &mut self,
        settings: &Settings,
        me: Rank,
        time: u64,
        base: u64,
        clean: bool,
        outs: &mut Outs,
    )
        requires { me.0 < length settings.now.nodes }
        ensures { BootedSeat self.new settings.now me.0 time base clean outs.new }
    {
        *self = Seat {
            on: true,
            held: false,
            node: Node::new(settings, me),
            clock: base,
            fed: time,
            decided: None,
            op: None,
            stop_due: false,
        };
        self.hand(time, What::begin(clean), outs);
    }

    /// The running node is handed an entry at the present tick of its clock.
    #[inline(always)]
    pub(crate) fn hand(&mut self, time: u64, what: What, outs: &mut Outs)
        requires { 0 < steps_of self.old.node }
        ensures { HandedSeat self.old self.new time what outs.new }
    {
        let tick = self.tick();
        self.node.step(Entry { tick, what }, outs);
        let gone = is_gone(self.node.phase());
        self.held = self.node.holds();
        self.note(gone, time, what, outs);
    }

    /// Whether the node takes part in the cluster.
    pub(crate) fn is_live(&self) -> bool
        ensures value { result ≡ is_live (phase_of self.now.node) }
        ensures exact { (s : Settings) (me : ℕ) (node : Running)
            → SeatFor self.now s me node
            → node.on ≡ true
            → result ≡ is_live (phase s node.log) }
    {
        matches!(self.node.phase(), Phase::Up | Phase::Leaving)
    }

    /// A seat that stands for the same node, which takes part in the cluster.
    pub(crate) fn copy(&self) -> Seat
        requires { is_live (phase_of self.now.node) ≡ true }
        ensures room { steps_of result.node ≡ steps_of self.now.node }
        ensures op { result.op ≡ self.now.op }
        ensures stands { (s : Settings) (me : ℕ) (node : Running)
            → SeatFor self.now s me node
            → SeatFor result s me node }
    {
        Seat {
            on: self.on,
            held: self.held,
            node: self.node.copy(),
            clock: self.clock,
            fed: self.fed,
            decided: self.decided,
            op: self.op,
            stop_due: self.stop_due,
        }
    }

    /// What an entry and its outputs come to, of which the node may be gone.
    fn note(&mut self, gone: bool, time: u64, what: What, outs: &Outs)
        ensures { self.new ≡ record self.old {
          on = not gone;
          decided = (if has_feed outs.now then Some time else self.old.decided);
          op = op_with what outs.now self.old.op;
          stop_due = stop_with what outs.now self.old.stop_due;
        } }
    {
        self.on = !gone;
        if outs.has_feed() {
            self.decided = Some(time);
        }
        self.op = outs
            .disk()
            .or(if what.is_answer() { None } else { self.op });
        self.stop_due = outs.has_stop() || (self.stop_due && !what.answers_stop());
    }
}
