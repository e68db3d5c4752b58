//! What turned a flag of the settings on.
use crate::pairs::{Pair, Place};

/// What turned a flag on or off: its own key, or what stands here for it where the key is not written.
pub(crate) fn reason_of(
    pairs: &[Pair<'_>],
    key: &'static str,
    absent: &'static str,
) -> &'static str {
    if is_written(pairs, key) { key } else { absent }
}

/// Whether the quorum section has this key.
pub(crate) fn is_written(pairs: &[Pair<'_>], key: &str) -> bool {
    pairs
        .iter()
        .any(|pair| pair.place == Place::Quorum && pair.key == key)
}
