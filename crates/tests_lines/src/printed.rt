//! How what a line says is written in the tables.

use std::alloc::{AllocError, Global};
use vm_base::Sample;
use vm_decimal::Dec;
use vm_labels::Row;

/// Writes a row as its labels, its value and its time.
pub(crate) fn push_row(alloc: Global, row: &Row, out: &mut Vec<u8>) -> Result<(), AllocError> {
    row.labels.print(out)?;
    push_value(row.value, out)?;
    push_number(alloc, row.time, out)
}

/// Writes where a line goes wrong.
pub(crate) fn push_skipped(alloc: Global, at: u64, out: &mut Vec<u8>) -> Result<(), AllocError> {
    out.extend_from_slice(b"skipped ")?;
    push_number(alloc, at, out)
}

/// Writes a value between blanks.
fn push_value(value: Sample, out: &mut Vec<u8>) -> Result<(), AllocError> {
    out.push(b' ')?;
    Dec::of_sample(value).print(out)?;
    out.push(b' ')?;
    Ok(())
}

pub(crate) fn push_number(alloc: Global, number: u64, out: &mut Vec<u8>) -> Result<(), AllocError> {
    out.extend_from_slice(format!(in alloc; "{number}")?.as_bytes())
}
