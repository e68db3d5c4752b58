//! How a disk operation on three images is answered: by its parts, one on each image.
//!
//! Promises: `answer_of` gives exactly the entry of the definitions (`qn_safety::specs::TripleWorld`), by the parts of
//! an operation and the good images of its node; `good_after` the good images once it is answered.
#![tactic(auto)]

mod answer;
mod values;

pub use answer::{answer_of, good_after};
pub use qn_safety::Part;
