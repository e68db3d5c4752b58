//! What is known of the nodes of a world, whatever the disk is that they share.
use crate::Cluster;
use qn_base::{Mask, Rank};
use qn_model::{DiskOp, Event as NodeEvent, Timing};

/// A world of nodes and their disk.
///
/// `kind` says what the world is in the definitions, of which `World` is a world.
pub trait HasNodes {
    ghost use Rattle.std.specs.Prelude.{◌≡◌, ◌<◌, ◌≤◌, true, length};
    ghost use Rattle.qn_base.specs.declared.limits.TheConstants.{LATEST_TIME};
    ghost use Rattle.qn_cluster.specs.Events.{is_ruled_by_nodes};
    ghost use Rattle.qn_cluster.specs.Standing.{IsOpWithin};
    ghost use Rattle.qn_cluster.specs.WorldKinds.{IsLawful, WorldKind};
    ghost use Rattle.qn_cluster.specs.WorldSteps.{IsStanding};
    ghost use Rattle.qn_model.specs.Rules.{is_on, is_well_formed, refusal};
    ghost use Rattle.qn_model.specs.Steps.{holders};
    ghost use Rattle.qn_model.specs.World.{op_at};

    /// What happens in the world.
    type Event;

    ghost World: { Type 0 };

    ghost kind: { WorldKind Self Self.World Self.Event };

    /// The nodes, without the disk.
    fn cluster(&self) -> &Cluster
        ensures { result.now ≡ kind.nodes self.now };

    /// The times that were handed to the world.
    fn timing(&self) -> &Timing
        ensures { result.now ≡ kind.timing self.now };

    /// So many steps are left from now on.
    fn set_steps(&mut self, steps: u64)
        ensures { self.new ≡ kind.with_steps self.old steps };

    ghost is_lawful: { IsLawful kind };

    /// The nodes that hold the resource.
    final fn holders(&self) -> Mask
        requires { IsStanding kind self.now }
        ensures { (d : Self.World)
            → kind.StandsFor self.now d
            → result ≡ holders (kind.nodes self.now).settings (kind.nodes_of d) }
    {
        self.cluster().holders()
    }

    /// The disk operation of a running node that is out.
    final fn op(&self, i: Rank) -> Option<DiskOp>
        requires { i.0 < length (kind.nodes self.now).seats }
        ensures exact { (d : Self.World)
            → kind.StandsFor self.now d
            → is_on (kind.nodes self.now).settings i.0 (kind.nodes_of d) ≡ true
            → result ≡ op_at (kind.nodes self.now).settings i.0 (kind.nodes_of d) }
        ensures within { (d : Self.World)
            → kind.StandsFor self.now d
            → IsOpWithin (length (kind.nodes self.now).settings.nodes) result }
    {
        self.cluster().op(i)
    }

    /// The number of the rule that refuses an event whose rule looks at nodes alone.
    final fn refuses_node(&self, event: &NodeEvent) -> Option<u8>
        requires formed { is_well_formed (kind.nodes self.now).settings event.now ≡ true }
        requires standing { IsStanding kind self.now }
        requires early { (kind.nodes self.now).time ≤ LATEST_TIME }
        requires nodes { is_ruled_by_nodes event.now ≡ true }
        ensures { (d : Self.World)
            → kind.StandsFor self.now d
            → result ≡ refusal (kind.nodes self.now).settings (kind.timing self.now) event.now
            (kind.nodes_of d) }
    {
        self.cluster().refusal(event, self.timing())
    }
}
