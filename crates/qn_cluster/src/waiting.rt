//! What a node waits for.
use crate::cluster::Cluster;
use crate::seat::Seat;
use qn_base::Rank;
use qn_model::DiskOp;

/// What a node waits for. Of a node that is off, running and stop_due are false, fed is 0, and decided and op are
/// None.
#[derive(Clone, Copy, PartialEq, Eq)]
pub struct Waiting {
    pub running: bool,
    /// The true time of the last feed that took effect, or of the boot, in milliseconds.
    pub fed: u64,
    /// The true time of the last feed that was decided since the boot.
    pub decided: Option<u64>,
    /// The disk operation that is out.
    pub op: Option<DiskOp>,
    /// Whether a Stop is unanswered.
    pub stop_due: bool,
}

impl Seat {
    ghost use Rattle.std.specs.Prelude.{◌≡◌, ℕ};
    ghost use Rattle.qn_model.specs.declared.configuration.Settings.{Settings};
    ghost use Rattle.qn_model.specs.Moments.{Running};
    ghost use Rattle.qn_cluster.specs.Seats.{SeatFor};
    ghost use Rattle.qn_cluster.specs.Seen.{waiting_of};

    /// What the node waits for.
    fn waiting(&self) -> Waiting
        ensures { (s : Settings) (me : ℕ) (node : Running) → SeatFor self.now s me node
            → result ≡ waiting_of node }
    {
        if self.on {
            Waiting {
                running: true,
                fed: self.fed,
                decided: self.decided,
                op: self.op,
                stop_due: self.stop_due,
            }
        } else {
            Waiting {
                running: false,
                fed: 0,
                decided: None,
                op: None,
                stop_due: false,
            }
        }
    }
}

impl Cluster {
    ghost use Rattle.std.specs.Prelude.{◌≡◌, ◌<◌, List, length, true};
    ghost use Rattle.qn_model.specs.Log.{op_out};
    ghost use Rattle.qn_model.specs.Moments.{Moment, node};
    ghost use Rattle.qn_cluster.specs.Seen.{waiting_of};
    ghost use Rattle.qn_cluster.specs.Standing.{ClusterFor, IsOpWithin};

    /// What the node of a rank waits for.
    pub fn waiting(&self, i: Rank) -> Waiting
        requires { i.0 < length self.now.seats }
        ensures { (moments : List Moment)
            → ClusterFor self.now moments
            → result ≡ waiting_of (node self.now.settings i.0 moments) }
    {
        self.seat(i).waiting()
    }

    /// The disk operation of a running node that is out.
    pub fn op(&self, i: Rank) -> Option<DiskOp>
        requires { i.0 < length self.now.seats }
        ensures exact { (moments : List Moment)
            → ClusterFor self.now moments
            → (node self.now.settings i.0 moments).on ≡ true
            → result ≡ op_out (node self.now.settings i.0 moments).log }
        ensures within { (moments : List Moment)
            → ClusterFor self.now moments
            → IsOpWithin (length self.now.settings.nodes) result }
    {
        self.seat(i).op
    }
}
