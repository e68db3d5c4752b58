//! What was sent last.
use qn_base::{Said, View};

/// What the last Hello said, and the view that came with it.
#[derive(Clone, Copy)]
pub struct Told {
    pub tick: u64,
    pub said: Said,
    /// The view that was announced with it.
    pub view: Option<View>,
}
