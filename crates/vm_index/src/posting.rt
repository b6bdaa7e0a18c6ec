//! Which sets have a pair.

use vm_base::List;
use vm_labels::Pair;

/// A pair, and the ordinals of the sets that have it, which rise.
#[derive(Debug, Drop)]
pub struct Posting {
    /// The pair.
    pub pair: Pair,
    /// The ordinals of the sets that have it.
    pub ordinals: List<u64>,
}
