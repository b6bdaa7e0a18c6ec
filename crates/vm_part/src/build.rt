//! A part made of series.

ghost use Rattle.std.specs.Prelude.{◌≡◌, ◌≤◌, length, map, sum_by, IfOk, OnOk};
ghost use Rattle.std.specs.List.{AllByRecursion};
ghost use Rattle.vm_index.specs.Index.{AreSets};
ghost use Rattle.vm_part.specs.inner.Making.{ArePut, AreSamples, IsPut, IsWritable, summed, with_sections};
ghost use Rattle.vm_part.specs.Said.{CanBeStored, IsMadeOf};

use crate::footer::{FRONT_MARK, Footer};
use crate::numbers::{put_entries, put_footer};
use crate::{Entry, MemPart};
use std::alloc::{AllocError, Global};
use vm_base::{List, Stamped};
use vm_block::{cut, encode_block};
use vm_index::Index;
use vm_labels::Labels;
use vm_series::Series;

/// The part that holds these series, which rise in label order, keep the limits of an import and
/// have some samples each, in order.
pub(crate) fn build(alloc: Global, series: List<Series>) -> Result<MemPart, AllocError>
    requires { CanBeStored series }
    ensures { IfOk result (λ part. IsMadeOf series part) }
{
    let mut bytes = Vec::from_slice(alloc, FRONT_MARK)?;
    let entries = put_series(alloc, &mut bytes, series.as_slice())?;
    let sets = labels_of(alloc, series)?;
    let index = Index::build(alloc, sets)?;
    let rows = rows_of(entries.as_slice())?;
    put_sections(&mut bytes, entries.as_slice(), &index, rows)?;
    Ok(MemPart::keep(bytes, index, entries, rows))
}

/// Appends the blocks of series, and gives an entry for each.
fn put_series(
    alloc: Global,
    out: &mut Vec<u8>,
    series: &[Series],
) -> Result<List<Entry>, AllocError>
    requires { AllByRecursion IsWritable series.now }
    ensures { IfOk result (λ entries. ArePut series.now out.old.items out.new.items entries) }
{
    let mut entries = List::new(alloc);
    for one in series {
        let entry = put_blocks(alloc, out, one.samples.as_slice())?;
        entries.push(entry)?;
    }
    Ok(entries)
}

/// Appends the blocks of samples, and gives the entry of their series.
fn put_blocks(alloc: Global, out: &mut Vec<u8>, samples: &[Stamped]) -> Result<Entry, AllocError>
    requires { AreSamples samples.now }
    ensures { IfOk result (λ entry. IsPut samples.now out.old.items out.new.items entry) }
{
    let start = out.len() as u64;
    let blocks = cut(alloc, samples)?;
    for block in blocks.as_slice() {
        let bytes = encode_block(alloc, block.as_slice())?;
        out.extend_from_slice(bytes.as_slice())?;
    }
    Ok(entry_for(start, blocks.len() as u64, samples))
}

/// The entry of samples that stand from a place on in so many blocks.
fn entry_for(start: u64, blocks: u64, samples: &[Stamped]) -> Entry
    requires { 1 ≤ length samples.now }
    ensures { result ≡ summed start blocks samples.now }
{
    Entry {
        start,
        blocks,
        rows: samples.len() as u64,
        first_time: samples[0].time,
        last_time: samples[samples.len() - 1].time,
    }
}

/// The label sets of series.
fn labels_of(alloc: Global, series: List<Series>) -> Result<List<Labels>, AllocError>
    ensures { IfOk result (λ sets. sets ≡ map (λ one. one.labels) series) }
{
    let mut sets = List::new(alloc);
    for one in series.into_vec() {
        let Series { labels, samples: _ } = one;
        sets.push(labels)?;
    }
    Ok(sets)
}

/// How many samples entries have together. Memory holds fewer than 2^64.
fn rows_of(entries: &[Entry]) -> Result<u64, AllocError>
    ensures { IfOk result (λ rows. rows ≡ sum_by (λ entry. entry.rows) entries.now) }
{
    let mut rows = 0u64;
    for entry in entries {
        rows = rows.checked_add(entry.rows).ok_or(AllocError)?;
    }
    Ok(rows)
}

/// Appends what stands behind the blocks.
fn put_sections(
    out: &mut Vec<u8>,
    entries: &[Entry],
    index: &Index,
    rows: u64,
) -> Result<(), AllocError>
    ensures bytes { OnOk result (out.new.items
        ≡ with_sections out.old.items entries.now index.now (length index.now) rows) }
    ensures sets { OnOk result (AreSets index.now) }
{
    let entries_at = out.len() as u64;
    put_entries(out, entries)?;
    let table_at = out.len() as u64;
    out.extend_from_slice(index.table())?;
    let postings_at = out.len() as u64;
    out.extend_from_slice(index.postings())?;
    put_footer(
        out,
        &Footer {
            entries_at,
            table_at,
            postings_at,
            series: index.sets().len() as u64,
            rows,
        },
    )
}
