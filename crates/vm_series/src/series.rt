//! Series, whole and in pieces.

use vm_base::{List, Stamped};
use vm_labels::Labels;

/// A label set with its samples.
#[derive(Debug, Drop)]
pub struct Series {
    /// The label set.
    pub labels: Labels,
    /// Its samples.
    pub samples: List<Stamped>,
}

/// Some samples of a label set, in any order. Other pieces may have more of the same set.
#[derive(Clone, Copy, Debug)]
pub struct Piece<'a> {
    /// The label set.
    pub labels: &'a Labels,
    /// Some of its samples.
    pub samples: &'a [Stamped],
}
