//! The commands, one in each file.
pub mod audit;
pub mod node;
pub mod node_logged;
