//! How rows of tables write numbers, places and samples.

use std::alloc::{AllocError, Global};
use vm_base::{Sample, Stamped};

/// The three cells of a row, with a `|` between two.
pub(crate) fn cells(row: &str) -> Option<(&str, &str, &str)> {
    let (first, rest) = row.split_once('|')?;
    let (second, third) = rest.split_once('|')?;
    Some((first, second, third))
}

/// So many whole numbers, with a blank between two.
pub(crate) fn numbers<const N: usize>(text: &str) -> Option<[u64; N]> {
    let mut all = [0; N];
    let mut words = text.split(' ');
    for at in 0..N {
        all[at] = words.next()?.parse().ok()?;
    }
    match words.next() {
        Some(_) => None,
        None => Some(all),
    }
}

/// The first letter of a word, and the place after the word, which is 0 where none is written.
pub(crate) fn placed(text: &str) -> Option<(u8, u64)> {
    let (word, place) = text.split_once(' ').unwrap_or((text, "0"));
    match (word.as_bytes(), place.parse()) {
        ([letter, ..], Ok(place)) => Some((*letter, place)),
        _ => None,
    }
}

/// A sample: its time, its mantissa and its exponent of ten, which is 0 where none is written.
fn sample(text: &str) -> Option<Stamped> {
    let (time, value) = text.split_once(' ')?;
    let (m, e) = value.split_once(' ').unwrap_or((value, "0"));
    stamped(time, m, e)
}

fn stamped(time: &str, m: &str, e: &str) -> Option<Stamped> {
    match (time.parse(), m.parse(), e.parse()) {
        (Ok(time), Ok(m), Ok(e)) => {
            let value = Sample::of(m, e)?;
            Some(Stamped { time, value })
        }
        _ => None,
    }
}

/// Samples, with a comma between two. An error where the text writes other things.
pub(crate) fn samples(alloc: Global, text: &str) -> Result<Vec<Stamped>, AllocError> {
    let mut all = Vec::new(alloc);
    if text.is_empty() {
        return Ok(all);
    }
    for word in text.split(", ") {
        match sample(word) {
            Some(sample) => all.push(sample)?,
            None => return Err(AllocError),
        }
    }
    Ok(all)
}
