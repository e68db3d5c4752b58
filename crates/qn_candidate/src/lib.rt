//! Whom the leader of a view names as its candidate, by what the members said of themselves.
//!
//! Promises: `candidate_of` and `number_of` are their definitions (`specs/Candidate.antt`, `specs/Numbers.antt`); the laws say who is
//! named, and that a view with that number chooses whom it names (`specs/Laws.antt`).
#![tactic(auto)]

mod candidate;
mod laws;
mod number;

pub use candidate::{Facts, Name, candidate_of, hears_all, meets};
pub use laws::{
    law_best_is_heaviest, law_holder_is_kept, law_name_is_kept, law_names_choose,
    law_names_give_away, law_only_the_named_start, law_plain_numbers, law_plain_views,
    law_who_can_meets_all, law_who_is_named,
};
pub use number::{next_plain, number_of, without_name};
