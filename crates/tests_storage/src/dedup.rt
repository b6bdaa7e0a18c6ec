//! Lists that were thinned by hand.

use crate::rows::{cells, samples};
use std::alloc::{AllocError, Global};
use std::test::Fail;
use vm_base::Stamped;
use vm_dedup::Dedup;

/// An interval in ms, samples, and those of them that stay. A sample is a time and a whole number
/// that doesn't end with 0.
const ROWS: &str = r"60000|60000 1, 60001 2, 120000 3, 120000 5|60000 1, 120000 5
0|7 1, 7 1, 7 2, 8 2|7 1, 7 1, 7 2, 8 2
1|7 1, 7 1, 7 2, 8 2|7 2, 8 2
10|0 1, 1 2, 10 3, 11 4, 20 5, 21 6|0 1, 10 3, 20 5, 21 6
18446744073709551615|0 1, 1 2, 18446744073709551614 3, 18446744073709551615 4|0 1, 18446744073709551615 4
10||";

/// What stays of these samples.
fn kept(alloc: Global, interval: u64, samples: &[Stamped]) -> Result<Vec<Stamped>, AllocError> {
    let mut out = Vec::new(alloc);
    let mut dedup = Dedup::new(interval);
    for sample in samples {
        if let Some(sample) = dedup.push(*sample) {
            out.push(sample)?;
        }
    }
    if let Some(sample) = dedup.end() {
        out.push(sample)?;
    }
    Ok(out)
}

fn is_right(alloc: Global, row: &str) -> Result<bool, AllocError> {
    let Some((interval, given, due)) = cells(row) else {
        return Ok(false);
    };
    let Ok(interval) = interval.parse() else {
        return Ok(false);
    };
    let given = samples(alloc, given)?;
    let due = samples(alloc, due)?;
    Ok(kept(alloc, interval, &given)?.as_slice() == due.as_slice())
}

#[test]
fn the_last_of_each_interval_stays(rt: HostRuntime) -> Result<(), Fail> {
    for row in ROWS.lines() {
        assert!(rt; is_right(rt.alloc(), row)?, "{row}");
    }
    Ok(())
}
