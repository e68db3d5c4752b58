//! The change of visible nodes that a view maker waits for to settle.
use qn_base::Mask;

/// A change: each look from `begun` on found other visible nodes than the members of the present view, and gave no view. Ticks
/// are milliseconds of the node's clock.
#[derive(Clone, Copy)]
pub struct Change {
    /// The nodes that were visible at the last look.
    pub visible: Mask,
    /// The first of the looks, in a row up to the last one, that found these.
    pub since: u64,
    /// The first look of the change.
    pub begun: u64,
}
