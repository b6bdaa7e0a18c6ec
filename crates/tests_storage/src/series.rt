//! Series that were gathered by hand.

use crate::rows::{cells, samples};
use std::alloc::{AllocError, Global};
use std::test::Fail;
use vm_base::{List, Stamped, Text};
use vm_labels::{Labels, Pair};
use vm_series::{Piece, Series, gather};

/// An interval in ms, pieces of series, and the series that they make. A piece is the value of its
/// only label and its samples, each a time and a whole number that doesn't end with 0.
const ROWS: &str = r"0|y(1 1, 3 3) x(9 -4) y(2 2, 3 -1, 3 3)|x(9 -4) y(1 1, 2 2, 3 -1, 3 3, 3 3)
10|x(10 2, 11 3) y() x(4 7, 20 1)|x(10 2, 20 1)
5||";

/// The label set that has this job alone.
fn job(alloc: Global, name: &str) -> Result<Labels, AllocError> {
    let mut pairs = List::new(alloc);
    pairs.push(Pair {
        name: Text::from_str(alloc, "job")?,
        value: Text::from_str(alloc, name)?,
    })?;
    match Labels::build(alloc, pairs) {
        Ok(labels) => Ok(labels),
        Err(_) => Err(AllocError),
    }
}

/// Series, each the value of its label and its samples. An error where the text writes other
/// things.
fn series_of(alloc: Global, text: &str) -> Result<Vec<Series>, AllocError> {
    let mut all = Vec::new(alloc);
    for piece in text.split_terminator(')') {
        let Some((name, written)) = piece.split_once('(') else {
            return Err(AllocError);
        };
        let labels = job(alloc, name.trim())?;
        let samples = List::from_vec(samples(alloc, written)?);
        all.push(Series { labels, samples })?;
    }
    Ok(all)
}

/// What these make as pieces.
fn gathered(alloc: Global, interval: u64, series: &[Series]) -> Result<List<Series>, AllocError> {
    let mut pieces = Vec::new(alloc);
    for one in series {
        pieces.push(Piece {
            labels: &one.labels,
            samples: one.samples.as_slice(),
        })?;
    }
    gather(alloc, pieces, interval)
}

/// Whether two lists have the same series.
fn are_same(some: &[Series], others: &[Series]) -> bool {
    if some.len() != others.len() {
        return false;
    }
    for at in 0..some.len() {
        if some[at].labels != others[at].labels
            || some[at].samples.as_slice() != others[at].samples.as_slice()
        {
            return false;
        }
    }
    true
}

fn is_right(alloc: Global, row: &str) -> Result<bool, AllocError> {
    let Some((interval, given, due)) = cells(row) else {
        return Ok(false);
    };
    let Ok(interval) = interval.parse() else {
        return Ok(false);
    };
    let given = series_of(alloc, given)?;
    let due = series_of(alloc, due)?;
    let made = gathered(alloc, interval, &given)?;
    Ok(are_same(made.as_slice(), &due))
}

#[test]
fn pieces_become_series(rt: HostRuntime) -> Result<(), Fail> {
    for row in ROWS.lines() {
        assert!(rt; is_right(rt.alloc(), row)?, "{row}");
    }
    Ok(())
}
