//! The world of a cluster: its nodes in true time, the image that they share, the packets that were sent,
//! and the ten rules that an event has to obey. The nodes and the packets are those of `qn_cluster`, the sectors and the
//! leftovers those of `qn_cluster`, which also says how an event is taken: the world is its `World` of a `State` of one image.
//!
//! Promises: a `World` stands for a world of the definitions (`specs/Standing`), and what `qn_cluster` promises of any world holds
//! of it, as `one_image` says it. So `allowed` is exactly the rules; `apply_into`, and `apply` on it, answers the rule that
//! refuses an event, or makes exactly the step of the definitions and reports the new world. It runs out of memory only where
//! a step appends a packet or a leftover: nodes are kept in fixed memory. At most one node holds. What is shown of a node is
//! that of the definitions.
#![tactic(auto)]

mod disk;
mod looking;
mod pending;
mod rules;
mod state;
mod steps;
mod world;

pub use looking::NodeSeen;
pub use pending::Pending;
pub use qn_cluster::blank_report;
pub use state::State;
pub use world::World;
