//! One member in fixed memory: the cores of a node, wired. An entry goes in with its tick, and what the node does
//! comes out; nothing here reads a clock, a disk or a socket.
//!
//! Promises: a `Node` stands for the log of what it was handed (`specs/Node`): after a step it stands for that
//! log with the entry added, and what came out are the defined outputs of the entry: with the tie breaker, and a
//! reset waits until its node's fence delay is over. `why`, `answer`, `holds`, `phase` and `incarnation` are the
//! definitions of `qn_model` over the log, in every phase. A copy stands for the same. A node that takes part
//! never resets, nor reads the slot of, a member of its view (`law_outside`). No call takes memory from an
//! allocator.
#![tactic(auto)]

mod booting;
mod laws;
mod live;
mod node;
mod outputs;
mod own;
mod resource;
mod rest;
mod stage;
mod tally;

pub use laws::law_outside;
pub use node::Node;
