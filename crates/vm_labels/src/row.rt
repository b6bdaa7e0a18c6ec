//! What an import brings.

ghost use Rattle.std.specs.Prelude.{◌≡◌};

use crate::Labels;
use vm_base::{List, Sample, Stamped};

/// A sample of the series that has these labels.
#[derive(Debug, Drop)]
pub struct Row {
    /// The labels of the series.
    pub labels: Labels,
    /// Milliseconds since the Unix epoch.
    pub time: u64,
    /// The value at that time.
    pub value: Sample,
}

impl Row {
    /// The sample at its time, without its labels.
    pub fn stamped(&self) -> Stamped
        ensures { result ≡ record { time = self.now.time; value = self.now.value } }
    {
        Stamped {
            time: self.time,
            value: self.value,
        }
    }
}

/// Rows that are stored together or not at all.
#[derive(Debug, Drop)]
pub struct Batch {
    /// Its rows.
    pub rows: List<Row>,
}
