//! What an event came to, and why it was refused.
use crate::life::Why;
use crate::outputs::Outs;
use crate::rules::Rule;
use crate::votes::Answer;
use qn_base::{Mask, Rank};

/// What an event came to.
#[derive(Drop)]
pub struct Report {
    /// The true time after the event, in milliseconds.
    pub time: u64,
    /// The node of the event; none at a pass.
    pub touched: Option<Rank>,
    /// What that node does at the event.
    pub outs: Outs,
    /// The nodes that hold the resource after the event.
    pub holders: Mask,
    /// The count of that node at its present tick; that of a node that is off where it is off, and at a
    /// pass.
    pub answer: Answer,
    /// The first condition that blocks a start of that node at its present tick; Down where it is off, and at
    /// a pass.
    pub why: Why,
}

/// Why an event was refused. The world is as it was.
#[derive(Clone, Copy, PartialEq, Eq)]
pub enum Refused {
    /// The rule that refuses the event.
    NotAllowed(Rule),
    /// There is no memory for what the event adds.
    NoMemory,
}
