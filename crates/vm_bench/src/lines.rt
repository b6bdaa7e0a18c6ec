//! Lines of the text format, read, and bytes copied.

use std::alloc::{AllocError, Global};
use vm_promtext::{Line, read_line};

/// The time of lines without one, in ms.
const NOW: u64 = 1_700_000_000_000;

/// How many rows the lines hold, and how many lines are skipped, in all rounds.
pub(crate) fn read_all(alloc: Global, input: &[u8], rounds: u32) -> Result<String, AllocError> {
    let mut rows = 0u64;
    let mut skipped = 0u64;
    for _round in 0..rounds {
        for line in input.split(|byte| *byte == b'\n') {
            match read_line(alloc, line, NOW)? {
                Line::Row(_) => rows = rows.saturating_add(1),
                Line::Skipped { at: _ } => skipped = skipped.saturating_add(1),
                Line::Nothing | Line::NoNumber => {}
            }
        }
    }
    format!(in alloc; "rows {rows} skipped {skipped}")
}

/// How many bytes were copied in all rounds.
pub(crate) fn copy(alloc: Global, input: &[u8], rounds: u32) -> Result<String, AllocError> {
    let mut place = Vec::with_capacity(alloc, input.len())?;
    let mut copied = 0u64;
    for _round in 0..rounds {
        place.clear();
        place.extend_from_slice(input)?;
        copied = copied.saturating_add(place.len() as u64);
    }
    format!(in alloc; "bytes {copied}")
}
