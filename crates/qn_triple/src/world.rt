//! The world of three images.
use crate::state::State;

/// A cluster in true time, with its nodes, the three images that they share, and the packets that were sent. It changes
/// by events, each of which one of ten rules may refuse.
pub type TripleWorld = qn_cluster::World<State>;
