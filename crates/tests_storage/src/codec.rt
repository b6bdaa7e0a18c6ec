//! Columns and their bytes, which a few lines of Python gave by the format's description.

use crate::rows::{cells, numbers};
use std::alloc::{AllocError, Global};
use std::test::Fail;
use test_rows::bytes_of;
use vm_codec::{Coding, MAX_INTEGER, are_in_bounds, choose, decode, encode};

/// The values of a column, its coding and its bytes.
const COLUMNS: &str = r"7|Const|
7 7 7|Const|
1000 2000 3000 4000|DeltaConst|\xd0\x0f
5 3 1|DeltaConst|\x03
1 2 4 7|NearestDelta2|\x02\x02\x02
1 -1 2 -2 3|NearestDelta2|\x03\x0a\x0d\x12
0 64 0 64 1|NearestDelta|\x80\x01\x7f\x80\x01\x7d
999999999999999999 -999999999999999999|DeltaConst|\xfb\xff\xbf\xec\xe9\xd9\xb6\xc1\x37";

/// A coding; the first value, how many values there are to be, and where the bytes break; the
/// bytes, which are no such column.
const BROKEN: &str = r"NearestDelta2|1 4 0|\x82\x00\x02\x02
NearestDelta2|1 4 2|\x02\x02
NearestDelta2|1 4 2|\x02\x02\x82
NearestDelta2|1 4 3|\x02\x02\x02\x00
NearestDelta|1 3 1|\x02\x82\x80\x00
NearestDelta|999999999999999999 3 1|\x01\x04
NearestDelta|0 2 0|\x80\x80\xa0\xf6\xf4\xac\xdb\xe0\x1b
NearestDelta|0 2 0|\xff\xff\xff\xff\xff\xff\xff\xff\xff\x01
NearestDelta|0 2 0|\x80\x80\x80\x80\x80\x80\x80\x80\x80\x02
NearestDelta|0 2 0|\x80\x80\x80\x80\x80\x80\x80\x80\x80\x80\x01
DeltaConst|999999999999999998 3 0|\x02
DeltaConst|0 3 0|
DeltaConst|0 3 1|\x02\x02
Const|0 3 0|\x00
DeltaConst|0 1 0|
NearestDelta|0 1 0|\x02";

/// How far values go on both sides of 0.
const MOST: i64 = 999_999_999_999_999_999;

fn coding_of(name: &str) -> Option<Coding> {
    match name {
        "DeltaConst" => Some(Coding::DeltaConst),
        "Const" => Some(Coding::Const),
        "NearestDelta2" => Some(Coding::NearestDelta2),
        "NearestDelta" => Some(Coding::NearestDelta),
        _ => None,
    }
}

/// Whole numbers, with a blank between two. An error where the text writes other things.
fn values_of(alloc: Global, text: &str) -> Result<Vec<i64>, AllocError> {
    let mut values = Vec::new(alloc);
    for word in text.split(' ') {
        match word.parse() {
            Ok(value) => values.push(value)?,
            Err(_) => return Err(AllocError),
        }
    }
    Ok(values)
}

/// Whether a column is written in this coding as these bytes.
fn is_written(
    alloc: Global,
    values: &[i64],
    coding: Coding,
    column: &[u8],
) -> Result<bool, AllocError> {
    if values.is_empty() || values.len() > 8_192 || !are_in_bounds(values) {
        return Ok(false);
    }
    let mut bytes = vec![in alloc; 0u8; MAX_INTEGER * values.len()]?;
    let chosen = choose(values);
    let len = encode(chosen, values, &mut bytes);
    Ok(chosen == coding && bytes.get(..len) == Some(column))
}

/// The values of a column, or the place where its bytes break.
fn read(coding: Coding, first: i64, bytes: &[u8], into: &mut [i64]) -> Option<Result<(), u64>> {
    if into.is_empty() || into.len() > 8_192 || first < -MOST || first > MOST {
        return None;
    }
    Some(decode(coding, first, bytes, into).map_err(|broken| broken.at))
}

/// Whether these bytes are read in this coding as a column of these values.
fn is_read(
    alloc: Global,
    values: &[i64],
    coding: Coding,
    column: &[u8],
) -> Result<bool, AllocError> {
    let mut again = vec![in alloc; 0i64; values.len()]?;
    let first = values.first().copied().unwrap_or(0);
    Ok(read(coding, first, column, &mut again) == Some(Ok(())) && again.as_slice() == values)
}

fn is_column(alloc: Global, row: &str) -> Result<bool, AllocError> {
    let Some((values, coding, column)) = cells(row) else {
        return Ok(false);
    };
    let Some(coding) = coding_of(coding) else {
        return Ok(false);
    };
    let values = values_of(alloc, values)?;
    let column = bytes_of(alloc, column)?;
    Ok(is_written(alloc, &values, coding, &column)? && is_read(alloc, &values, coding, &column)?)
}

/// Whether bytes break as a column of so many values, at a place.
fn breaks_at(
    alloc: Global,
    coding: Coding,
    places: [u64; 3],
    bytes: &[u8],
) -> Result<bool, AllocError> {
    let [first, count, at] = places;
    let mut values = vec![in alloc; 0i64; count as usize]?;
    let first = i64::try_from(first).unwrap_or(i64::MAX);
    Ok(read(coding, first, bytes, &mut values) == Some(Err(at)))
}

fn breaks(alloc: Global, row: &str) -> Result<bool, AllocError> {
    let Some((coding, places, bytes)) = cells(row) else {
        return Ok(false);
    };
    match (coding_of(coding), numbers(places)) {
        (Some(coding), Some(places)) => {
            let bytes = bytes_of(alloc, bytes)?;
            breaks_at(alloc, coding, places, &bytes)
        }
        _ => Ok(false),
    }
}

#[test]
fn codings_have_numbers(rt: HostRuntime) {
    for coding in [
        Coding::DeltaConst,
        Coding::Const,
        Coding::NearestDelta2,
        Coding::NearestDelta,
    ] {
        assert_eq!(rt; Coding::of_number(coding.number()), Some(coding));
    }
    for number in [0, 1, 4, 7, 255] {
        assert_eq!(rt; Coding::of_number(number), None, "{number}");
    }
}

#[test]
fn columns_are_written_and_read(rt: HostRuntime) -> Result<(), Fail> {
    for row in COLUMNS.lines() {
        assert!(rt; is_column(rt.alloc(), row)?, "{row}");
    }
    Ok(())
}

#[test]
fn other_bytes_break(rt: HostRuntime) -> Result<(), Fail> {
    for row in BROKEN.lines() {
        assert!(rt; breaks(rt.alloc(), row)?, "{row}");
    }
    Ok(())
}
