//! Parts made, opened and looked into.

use std::alloc::{AllocError, Global};
use std::rc::Rc;
use std::time::Clock;
use vm_base::List;
use vm_labels::{Batch, Row};
use vm_outside::MemDisk;
use vm_part::{MemPart, PartReader, are_within_limits, open_part};
use vm_promtext::{Line, read_line};

/// The times of five batches, in ms. Each has a sample of every series.
const TIMES: [u64; 5] = [
    1_700_000_000_000,
    1_700_000_015_000,
    1_700_000_030_000,
    1_700_000_045_000,
    1_700_000_060_000,
];

/// The file of the part.
const FILE: u64 = 2;

/// Makes parts of five batches of the lines, one part of these, opens its file, looks a thousand
/// labels up a thousand times in each round, and copies the file a hundred times. Tells how many
/// bytes the file has, how many series were found, and how many microseconds each of the five took.
/// Nothing where the lines have no rows.
pub(crate) fn run<C: Clock>(
    clock: &C,
    alloc: Global,
    input: &[u8],
    rounds: u32,
) -> Result<String, AllocError> {
    let (parts, batches) = parts(clock, alloc, input)?;
    match merged(clock, alloc, &parts)? {
        Some((part, merge)) => {
            let told = of_file(clock, alloc, part.image(), rounds)?;
            format!(in alloc; "batches {batches} merge {merge} {told}")
        }
        None => Ok(String::new(alloc)),
    }
}

/// What is told of a part's file.
fn of_file<C: Clock>(
    clock: &C,
    alloc: Global,
    file: &[u8],
    rounds: u32,
) -> Result<String, AllocError> {
    let copy = copied(clock, alloc, file)?;
    match opened(clock, alloc, file)? {
        Some((reader, open)) => {
            let (found, find) = looked_up(clock, alloc, &reader, rounds)?;
            let bytes = file.len();
            format!(in alloc; "open {open} find {find} copy {copy} bytes {bytes} found {found}")
        }
        None => Ok(String::new(alloc)),
    }
}

/// How many microseconds the clock has gone, 0 where it fails.
fn micros<C: Clock>(clock: &C) -> u64 {
    match clock.monotonic() {
        Ok(time) => u64::try_from(time.as_micros()).unwrap_or(0),
        Err(_) => 0,
    }
}

/// A part of each batch, and how long they took.
fn parts<C: Clock>(
    clock: &C,
    alloc: Global,
    input: &[u8],
) -> Result<(Vec<Rc<MemPart>>, u64), AllocError> {
    let mut parts = Vec::new(alloc);
    let mut took = 0u64;
    for time in TIMES {
        let batch = batch(alloc, input, time)?;
        if !batch.rows.is_empty() && are_within_limits(&batch) {
            let start = micros(clock);
            let part = MemPart::of_batch(alloc, &batch)?;
            took = took.saturating_add(micros(clock).saturating_sub(start));
            parts.push(Rc::new(alloc, part)?)?;
        }
    }
    Ok((parts, took))
}

/// The part of these parts, where they have rows, and how long it took.
fn merged<C: Clock>(
    clock: &C,
    alloc: Global,
    parts: &[Rc<MemPart>],
) -> Result<Option<(MemPart, u64)>, AllocError> {
    if !parts.iter().any(|part| part.rows() > 0) {
        return Ok(None);
    }
    let start = micros(clock);
    let part = MemPart::of_parts(alloc, parts, 0)?;
    Ok(Some((part, micros(clock).saturating_sub(start))))
}

/// The part that is opened, of a file on a disk in memory, and how long it took.
fn opened<C: Clock>(
    clock: &C,
    alloc: Global,
    file: &[u8],
) -> Result<Option<(PartReader, u64)>, AllocError> {
    let mut disk = MemDisk::steady(alloc).holding(FILE, file)?;
    let start = micros(clock);
    match open_part(alloc, &mut disk, FILE, file.len() as u64) {
        Ok(reader) => Ok(Some((reader, micros(clock).saturating_sub(start)))),
        Err(_) => Ok(None),
    }
}

/// How many series are found, and how long it took.
fn looked_up<C: Clock>(
    clock: &C,
    alloc: Global,
    reader: &PartReader,
    rounds: u32,
) -> Result<(u64, u64), AllocError> {
    let shards = shards(alloc)?;
    let start = micros(clock);
    let found = find(reader, &shards, rounds);
    Ok((found, micros(clock).saturating_sub(start)))
}

/// The rows of the lines, each at this time.
fn batch(alloc: Global, input: &[u8], time: u64) -> Result<Batch, AllocError> {
    let mut rows = List::new(alloc);
    for line in input.split(|byte| *byte == b'\n') {
        if let Line::Row(row) = read_line(alloc, line, 0)? {
            rows.push(Row { time, ..row })?;
        }
    }
    Ok(Batch { rows })
}

/// How many series are found by each `shard`, a thousand times in each round.
fn find(reader: &PartReader, values: &[String], rounds: u32) -> u64 {
    let mut found = 0u64;
    for _round in 0..rounds.saturating_mul(1_000) {
        for value in values {
            let ordinals = reader.index().lookup("shard", value.as_str());
            found = found.saturating_add(ordinals.len() as u64);
        }
    }
    found
}

/// A thousand values of `shard`.
fn shards(alloc: Global) -> Result<Vec<String>, AllocError> {
    let mut values = Vec::new(alloc);
    for number in 0..1_000u64 {
        values.push(format!(in alloc; "shard-{number}")?)?;
    }
    Ok(values)
}

/// How long a hundred copies of the file take.
fn copied<C: Clock>(clock: &C, alloc: Global, file: &[u8]) -> Result<u64, AllocError> {
    let mut place = Vec::with_capacity(alloc, file.len())?;
    let start = micros(clock);
    for _round in 0..100 {
        place.clear();
        place.extend_from_slice(file)?;
    }
    Ok(micros(clock).saturating_sub(start))
}
