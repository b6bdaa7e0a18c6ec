//! Which rows may stand in a part.

ghost use Rattle.std.specs.Prelude.{◌↔◌, IsTrue};
ghost use Rattle.std.specs.List.{AllByRecursion};
ghost use Rattle.vm_part.specs.Said.{IsRow};

use vm_base::limits::MAX_TIME;
use vm_labels::{Batch, Row};

/// Whether all rows of a batch keep the limits of an import, on their labels and on their times.
pub fn are_within_limits(batch: &Batch) -> bool
    ensures { IsTrue result ↔ AllByRecursion IsRow batch.now.rows }
{
    batch.rows.as_slice().iter().all(is_within_limits)
}

fn is_within_limits(row: &Row) -> bool
    ensures { IsTrue result ↔ IsRow row.now }
{
    row.time <= MAX_TIME && row.labels.limit().is_none()
}
