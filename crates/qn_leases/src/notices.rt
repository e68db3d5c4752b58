//! What is told of the run of an arbiter.
use qn_model::Settings;
use qn_safety::{Lease, Poll};

/// An object that is told of the run of an arbiter. It sees it, and changes nothing of it.
pub trait ArbiterNotices {
    /// An arbiter of a cluster with these settings is to run, with these times.
    fn began(&mut self, settings: &Settings, times: Lease);

    /// The arbiter boots at that tick.
    fn booted(&mut self, tick: u64);

    /// A poll was heard at that tick, and that answer was sent.
    fn answered(&mut self, tick: u64, poll: &Poll, agrees: bool);

    /// No poll came for a while.
    fn waited(&mut self);
}
