//! Who led at the last look.
use qn_base::Rank;

/// The node that led at each look since one.
#[derive(Clone, Copy)]
pub struct Lead {
    pub rank: Rank,
    /// The tick of the first of these looks.
    pub since: u64,
}
