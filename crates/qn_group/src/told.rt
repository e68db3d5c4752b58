//! What is told of a group.
ghost use Rattle.std.specs.Prelude.{◌≡◌, IfSome};
ghost use Rattle.std.specs.List.{list_all};
ghost use Rattle.qn_group.specs.Phases.{is_down, is_up};
ghost use Rattle.qn_group.specs.Places.{phase_of};
ghost use Rattle.qn_group.specs.Told.{IsToldOf, word_of};

use crate::group::Group;
use crate::phase::{Phase, Word};

/// What is told of a group.
#[derive(Clone, Copy, PartialEq, Eq)]
pub struct Told {
    /// Of several words that are true the first of: stuck, stopping, failed, starting, down (where all are), looking, starting (where one is down), unsure,
    /// maintenance, runs.
    pub word: Word,
    /// The place of the resource that the word speaks of, where it speaks of one.
    pub at: Option<usize>,
    /// Whether the group is as it should be: it runs, or it is down and the node does not hold.
    pub is_fine: bool,
}

impl Group {
    ghost use Rattle.std.specs.Prelude.{◌≡◌, IfSome};
    ghost use Rattle.qn_group.specs.Steps.{used};
    ghost use Rattle.qn_group.specs.Told.{IsToldOf, is_as_wanted};

    /// The phases of the resources, in the order of the file.
    pub fn phases(&self) -> &[Phase]
        ensures { result.now ≡ used self.now }
    {
        let (used, _unused) = self.phases.split_at(self.count.min(self.phases.len()));
        used
    }

    /// What is told of the group.
    pub fn told(&self) -> Told
        ensures fine { result.is_fine ≡ is_as_wanted self.now.held (used self.now) }
        ensures place { IfSome result.at (λ at. IsToldOf result.word (used self.now) at) }
    {
        let phases = self.phases();
        let is_fine = if are_down(phases) {
            !self.held
        } else {
            are_up(phases)
        };
        let (word, at) = said(phases, self.hands_off);
        Told { word, at, is_fine }
    }
}

/// Whether nothing of these runs.
fn are_down(phases: &[Phase]) -> bool
    ensures { result ≡ list_all is_down phases.now }
{
    phases.iter().all(|phase| phase.is_down())
}

/// Whether all of these run, or are only looked at.
fn are_up(phases: &[Phase]) -> bool
    ensures { result ≡ list_all is_up phases.now }
{
    phases.iter().all(|phase| phase.is_up())
}

/// The place of the first one of which this is told.
fn first(phases: &[Phase], word: Word) -> Option<usize>
    ensures { IfSome result (λ at. word_of (phase_of phases.now at) ≡ word) }
{
    phases.iter().position(|phase| phase.word() == word)
}

/// What is told of these, and the place of the one that it is told of.
fn said(phases: &[Phase], hands_off: bool) -> (Word, Option<usize>)
    ensures { IfSome result.1 (λ at. IsToldOf result.0 phases.now at) }
{
    for word in [Word::Stuck, Word::Stopping, Word::Failed, Word::Starting] {
        if let Some(at) = first(phases, word) {
            return (word, Some(at));
        }
    }
    if are_down(phases) {
        return (Word::Down, None);
    }
    if let Some(at) = first(phases, Word::Looking) {
        return (Word::Looking, Some(at));
    }
    if let Some(at) = first(phases, Word::Down) {
        return (Word::Starting, Some(at));
    }
    match first(phases, Word::Unsure) {
        Some(at) => (Word::Unsure, Some(at)),
        None if hands_off => (Word::Maintenance, None),
        None => (Word::Runs, None),
    }
}
