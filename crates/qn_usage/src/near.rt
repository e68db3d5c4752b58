//! The name that a misspelled word stands for.
use std::alloc::Global;
use strsim::osa_distance;

/// How many letters may be wrong, missing, one too many or swapped.
const MOST_EDITS: usize = 2;

/// The nearest of some names, while they are looked at one by one.
#[derive(Clone, Copy)]
pub(crate) struct Nearest<'word> {
    word: &'word str,
    edits: usize,
    name: Option<&'static str>,
}

impl<'word> Nearest<'word> {
    /// No name so far that is near to this word.
    pub(crate) fn to(word: &'word str) -> Nearest<'word> {
        Nearest {
            word,
            edits: MOST_EDITS + 1,
            name: None,
        }
    }

    /// Looks at one more name. A name that is no nearer than another one was makes that one no answer.
    pub(crate) fn look_at(&mut self, alloc: Global, name: &'static str) {
        let edits = edits_of(alloc, self.word, name);
        if edits < self.edits {
            self.edits = edits;
            self.name = Some(name);
        } else if edits == self.edits && self.name != Some(name) {
            self.name = None;
        }
    }

    /// The one that is nearest, where there is one alone.
    pub(crate) fn name(&self) -> Option<&'static str> {
        self.name
    }
}

/// How far a word is from a name. One that a name begins with is near; where there is no memory to count, none is.
fn edits_of(alloc: Global, word: &str, name: &str) -> usize {
    if word.len() > 1 && name.starts_with(word) {
        return 1;
    }
    osa_distance(alloc, word, name).unwrap_or(usize::MAX)
}
