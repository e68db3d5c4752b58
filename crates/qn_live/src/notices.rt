//! Who is told what a running node does.
ghost use Rattle.qn_live.specs.declared.asked.Asked.{Asked};
ghost use Rattle.qn_live.specs.declared.asked.Given.{Given};
ghost use Rattle.qn_live.specs.declared.live_end.LiveEnd.{LiveEnd};

use crate::asked::{Asked, Given};
use crate::decoded::Decoded;
use crate::live_end::LiveEnd;
use crate::run::NodeRun;

/// An object that is told of each call of a run, and of its end. It sees them, and changes nothing of the run.
pub trait Notices {
    /// What such an object says of its being told of a call, by it before and after: nothing, where it says no more.
    ghost hears: { Self → Self → Asked → Given → Type 0 } = { λ _ _ _ _. Unit {0} };

    /// The same of the end.
    ghost hears_end: { Self → Self → LiveEnd → Type 0 } = { λ _ _ _. Unit {0} };

    /// The node made this call and has taken its answer, whose bytes are that. After a look at the clock that did not go back, the entry
    /// of the turn was taken in, and nothing of it was performed yet: the calls that the run makes next are those of its outputs.
    fn made(&mut self, asked: Asked, given: Given, decoded: Decoded, run: &NodeRun)
        ensures { hears self.old self.new asked given };

    /// The run is over, and ended so.
    fn ended(&mut self, end: LiveEnd, run: &NodeRun)
        ensures { hears_end self.old self.new end };
}

/// Tells nobody.
#[derive(Drop)]
pub struct NoNotices;

impl Notices for NoNotices {
    fn made(&mut self, _asked: Asked, _given: Given, _decoded: Decoded, _run: &NodeRun) {}

    fn ended(&mut self, _end: LiveEnd, _run: &NodeRun) {}
}
