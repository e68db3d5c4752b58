//! A call of a log as it is read.
use qn_live::{Asked, Given};

/// A call with its answer. The bytes of both stand in a `Room` beside it.
#[derive(Clone, Copy)]
pub struct LoggedCall {
    pub asked: Asked,
    pub given: Given,
}
