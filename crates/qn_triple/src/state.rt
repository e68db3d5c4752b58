//! What a world of three images keeps.
use qn_cluster::{Cluster, HasNodes, Leftovers, Sectors};
use qn_model::Timing;
use qn_parts::Part;
use qn_safety::TripleEvent;
use std::marker::Model;

/// What a world keeps: its nodes, the parts of the operation of each and its good images, by rank, and the three images.
#[derive(Drop)]
pub struct State {
    pub(crate) cluster: Cluster,
    pub(crate) timing: Timing,
    pub(crate) parts: Vec<[Part; 3]>,
    pub(crate) good: Vec<[bool; 3]>,
    pub(crate) sectors: Vec<Sectors>,
    pub(crate) left: Leftovers,
}

impl Model for State {
    ghost use Rattle.qn_triple.specs.Whole.{Whole};

    ghost Value = { Whole };

    ghost view = { λ w. record {
      settings = w.cluster.settings;
      timing = w.timing;
      time = w.cluster.time;
      seats = w.cluster.seats;
      packets = w.cluster.packets;
      steps = w.cluster.steps;
      parts = w.parts.items;
      good = w.good.items;
      sectors = w.sectors.items;
      left = w.left;
    } };

    ghost use Rattle.qn_triple.specs.Whole.{HasSizes};

    ghost invariant = { λ w. HasSizes w.parts.items w.good.items w.sectors.items };
}

impl HasNodes for State {
    ghost use Rattle.qn_safety.specs.TripleWorld.{TripleWorld};
    ghost use Rattle.qn_triple.specs.Lawful.{three_images_are_lawful};
    ghost use Rattle.qn_triple.specs.Standing.{three_images};

    type Event = TripleEvent;

    ghost World = { TripleWorld };

    ghost kind = { three_images };

    ghost is_lawful = { three_images_are_lawful };

    fn cluster(&self) -> &Cluster {
        &self.cluster
    }

    fn timing(&self) -> &Timing {
        &self.timing
    }

    fn set_steps(&mut self, steps: u64) {
        self.cluster.set_steps(steps);
    }
}
