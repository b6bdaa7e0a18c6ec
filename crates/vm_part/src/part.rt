//! A part in memory.

ghost use Rattle.std.specs.Prelude.{◌≡◌, ◌<◌, ◌≤◌, length, map, flat_map, slice_get, nat_lt, Some, IfOk, IsTrue, ⊤};
ghost use Rattle.std.specs.List.{AllByRecursion, list_any};
ghost use Rattle.vm_part.specs.Part.{samples_of};
ghost use Rattle.vm_part.specs.Said.{IsMadeOf, IsMergedOf, IsRow, Says};
ghost use Rattle.vm_series.specs.Series.{series_of};

use crate::Entry;
use crate::build::build;
use crate::merging::{pieces_of_parts, pieces_of_rows, read_parts, stamps};
use crate::series::read_blocks;
use std::alloc::{AllocError, Global};
use std::marker::Model;
use std::rc::Rc;
use vm_base::{List, Stamped};
use vm_index::Index;
use vm_labels::Batch;
use vm_series::gather;

/// An immutable part in memory, whole: the bytes of its file, and what they say of its series.
/// Contracts see the bytes, the label sets, the entries and the number of rows.
#[derive(Debug, Drop)]
pub struct MemPart {
    /// The bytes of the file.
    bytes: Vec<u8>,
    /// The label sets of the series.
    index: Index,
    /// What is said of each series.
    entries: List<Entry>,
    /// How many samples there are.
    rows: u64,
}

impl Model for MemPart {
    ghost use Rattle.std.specs.Prelude.{⊤};
    ghost use Rattle.vm_part.specs.Said.{Kept, Says};

    ghost Value = { Kept };

    ghost view = { λ part.
        record {
          bytes = part.bytes.items;
          sets = part.index;
          entries = part.entries;
          rows = part.rows;
        } };

    ghost invariant = { λ part.
        Says (record {
          bytes = part.bytes.items;
          sets = part.index;
          entries = part.entries;
          rows = part.rows;
        }) (λ all. ⊤) };
}

impl MemPart {
    /// What was read of the bytes of a part, or written of one.
    pub(crate) fn keep(bytes: Vec<u8>, index: Index, entries: List<Entry>, rows: u64) -> MemPart
        requires { Says
            (record { bytes = bytes.items; sets = index; entries = entries; rows = rows })
            (λ all. ⊤) }
        ensures { result
            ≡ record { bytes = bytes.items; sets = index; entries = entries; rows = rows } }
    {
        MemPart {
            bytes,
            index,
            entries,
            rows,
        }
    }

    /// The part that holds the rows of a batch, which has some and keeps the limits of an import.
    pub fn of_batch(alloc: Global, batch: &Batch) -> Result<MemPart, AllocError>
        requires some { 1 ≤ length batch.now.rows }
        requires rows { AllByRecursion IsRow batch.now.rows }
        ensures { IfOk result (λ part. IsMadeOf (series_of 0 batch.now.rows) part) }
    {
        let rows = batch.rows.as_slice();
        let samples = stamps(alloc, rows)?;
        let pieces = pieces_of_rows(alloc, rows, &samples)?;
        let series = gather(alloc, pieces, 0)?;
        build(alloc, series)
    }

    /// The part that holds what is seen of the rows of some parts, where of each interval of so
    /// many ms only the last sample is; all are with an interval of 0 ms. Some part has a row.
    pub fn of_parts(
        alloc: Global,
        parts: &[Rc<MemPart>],
        interval: u64,
    ) -> Result<MemPart, AllocError>
        requires { IsTrue (list_any (λ part. nat_lt 0 part.value.rows) parts.now) }
        ensures { IfOk result
            (λ part. IsMergedOf interval (map (λ part. part.value) parts.now) part) }
    {
        let read = read_parts(alloc, parts)?;
        let pieces = pieces_of_parts(alloc, parts, read.as_slice())?;
        let series = gather(alloc, pieces, interval)?;
        build(alloc, series)
    }

    /// The bytes of the part's file. A caller learns from it that they are a part with these label
    /// sets, entries and rows.
    pub fn image(&self) -> &[u8]
        ensures bytes { result.now ≡ self.now.bytes }
        ensures part { Says self.now (λ all. ⊤) }
    {
        self.bytes.as_slice()
    }

    /// The label index of its series.
    pub fn index(&self) -> &Index
        ensures { result.now ≡ self.now.sets }
    {
        &self.index
    }

    /// How many samples it holds.
    pub fn rows(&self) -> u64
        ensures { result ≡ self.now.rows }
    {
        self.rows
    }

    /// What is said of a series, by its ordinal.
    pub fn entry(&self, ordinal: u64) -> Entry
        requires { ordinal < length self.now.sets }
        ensures { slice_get self.now.entries ordinal ≡ Some result }
    {
        let at = ordinal as usize;
        self.entries.as_slice()[at]
    }

    /// The samples of a series, by its ordinal, in order.
    pub fn samples(&self, alloc: Global, ordinal: u64) -> Result<List<Stamped>, AllocError>
        requires { ordinal < length self.now.sets }
        ensures { IfOk result
            (λ samples.
            Says self.now (λ all. slice_get (map samples_of all) ordinal ≡ Some samples)) }
    {
        let bytes = self.image();
        let said = self.entry(ordinal);
        read_blocks(alloc, bytes, &said)
    }
}
