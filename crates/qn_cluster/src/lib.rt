//! The nodes of a cluster in true time, and the packets that were sent; what the disk that they share keeps, in memory; and the world of
//! both, whatever the disk is: how it takes an event, and what it shows.
//!
//! Promises: a `Cluster` stands for the nodes of the definitions after a list of moments (`specs/Standing`).
//! Each call that changes it is one moment more, or has no memory for what a node sends and changes nothing.
//! Every packet that was sent is kept, since a later event may deliver it: in 16 bytes, beside a heading for what the
//! packets of one entry have in common.
//! What a node asks of the disk is what it waits for: the worlds above this crate keep the disk, and hand the
//! node its answer. The calls `refuses_..` are the rules that look at nodes alone.
//!
//! `Sectors` stands for the slots and mailboxes of an image of the definitions, and `Leftovers` for the writes of each node that were
//! given up before they landed, on each image (`specs/DiskStanding`); each call changes exactly what the definitions change.
//! A state that `Steps` (`specs/WorldKinds`) refuses an event by its rule, else it makes exactly the step of its
//! definitions and reports it (`specs/WorldSteps`). A `World` of such a state was reached by well formed events, each allowed
//! in its turn, and so at most one node holds; after a refusal it is as it was. It runs out of memory only where the
//! definitions want memory.
#![tactic(auto)]

mod clocks;
mod cluster;
mod entries;
mod events;
mod first;
mod hands;
mod has_nodes;
mod kept;
mod leftovers;
mod looking;
mod outputs;
mod packets;
mod rules;
mod seat;
mod seats;
mod sectors;
mod shows;
mod steps;
mod waiting;
mod world;

pub use cluster::Cluster;
pub use has_nodes::HasNodes;
pub use leftovers::{Leftover, Leftovers};
pub use looking::blank_report;
pub use rules::unless;
pub use sectors::Sectors;
pub use shows::Shows;
pub use steps::Steps;
pub use waiting::Waiting;
pub use world::World;
