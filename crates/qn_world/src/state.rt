//! What a world keeps.
use qn_base::{NoMemory, Rank};
use qn_cluster::{Cluster, HasNodes, Leftovers, Sectors};
use qn_model::{Event, Outs, Timing, What};
use std::marker::Model;

/// What a world keeps: its nodes, what the operation of each took, and the image that they share.
#[derive(Drop)]
pub struct State {
    pub(crate) cluster: Cluster,
    pub(crate) timing: Timing,
    pub(crate) took: [Option<What>; 32],
    pub(crate) sectors: Sectors,
    pub(crate) left: Leftovers,
}

impl Model for State {
    ghost use Rattle.qn_world.specs.Whole.{Whole};

    ghost Value = { Whole };

    ghost view = { λ w. record {
      settings = w.cluster.settings;
      timing = w.timing;
      time = w.cluster.time;
      seats = w.cluster.seats;
      took = w.took;
      sectors = w.sectors;
      packets = w.cluster.packets;
      left = w.left;
      steps = w.cluster.steps;
    } };
}

impl HasNodes for State {
    ghost use Rattle.qn_model.specs.World.{World};
    ghost use Rattle.qn_world.specs.Lawful.{one_image_is_lawful};
    ghost use Rattle.qn_world.specs.Standing.{one_image};

    type Event = Event;

    ghost World = { World };

    ghost kind = { one_image };

    ghost is_lawful = { one_image_is_lawful };

    fn cluster(&self) -> &Cluster {
        &self.cluster
    }

    fn timing(&self) -> &Timing {
        &self.timing
    }

    fn set_steps(&mut self, steps: u64) {
        self.cluster.set_steps(steps);
    }
}

impl State {
    ghost use Rattle.std.specs.Prelude.{◌<◌, OnOk, OnErr, length};
    ghost use Rattle.qn_cluster.specs.Standing.{HasRoom};
    ghost use Rattle.qn_world.specs.Stepping.{Hands, HandsNot};
    ghost use Rattle.qn_world.specs.Whole.{cluster_of};

    /// The running node of a rank is handed an entry.
    pub(crate) fn hand(&mut self, i: Rank, what: What, outs: &mut Outs) -> Result<(), NoMemory>
        requires within { i.0 < length self.old.seats }
        requires room { HasRoom (cluster_of self.old) }
        ensures ok { OnOk result (Hands self.old self.new i.0 what outs.new) }
        ensures err { OnErr result (HandsNot self.old self.new i.0 what) }
    {
        self.cluster.hand(i, what, outs)
    }
}
