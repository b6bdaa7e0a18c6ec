//! What a query asks for.

use vm_base::{List, Sample};
use vm_labels::{Labels, Selector};

/// A question for the values of some series at one time.
#[derive(Debug, Drop)]
pub struct Question {
    /// In milliseconds since the Unix epoch, at most 2^48 - 1.
    pub time: u64,
    pub selector: Selector,
}

/// A series' value at the time of a question.
#[derive(Debug, Drop)]
pub struct Valued {
    pub labels: Labels,
    pub value: Sample,
}

/// What a question comes to.
#[derive(Debug, Drop)]
pub struct Evaluated {
    /// The question's, in milliseconds since the Unix epoch, at most 2^48 - 1.
    pub time: u64,
    /// Each selected series that has a value then, in the order of their labels.
    pub values: List<Valued>,
}
