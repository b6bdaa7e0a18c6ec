//! Pieces of series, from a batch of rows or from other parts.

ghost use Rattle.std.specs.Prelude.{◌≡◌, ◌++◌, length, map, flat_map, List, IfOk, OnOk};
ghost use Rattle.std.specs.List.{AllZip};
ghost use Rattle.vm_dedup.specs.Visible.{stamped};
ghost use Rattle.vm_series.specs.Series.{rows_of_piece};
ghost use Rattle.vm_part.specs.Part.{Stored, samples_of};
ghost use Rattle.vm_part.specs.Said.{Says, SaysAll, rows_in};
ghost use Rattle.vm_part.specs.inner.Merging.{AreRead, rows_beside};

use crate::MemPart;
use crate::series::read_blocks;
use std::alloc::{AllocError, Global};
use std::rc::Rc;
use vm_base::{List, Stamped};
use vm_labels::{Labels, Row};
use vm_series::Piece;

/// Some samples of a label set.
fn piece_of<'a>(labels: &'a Labels, samples: &'a [Stamped]) -> Piece<'a>
    ensures labels { result.labels.now ≡ labels.now }
    ensures samples { result.samples.now ≡ samples.now }
{
    Piece { labels, samples }
}

// ---- a batch

/// The samples of rows.
pub(crate) fn stamps(alloc: Global, batch: &[Row]) -> Result<Vec<Stamped>, AllocError>
    ensures { IfOk result (λ samples. samples.items ≡ map stamped batch.now) }
{
    batch.iter().map(|row| row.stamped()).collect(alloc)
}

/// A piece for each row, of the sample beside it.
pub(crate) fn pieces_of_rows<'a>(
    alloc: Global,
    batch: &'a [Row],
    samples: &'a [Stamped],
) -> Result<Vec<Piece<'a>>, AllocError>
    requires { samples.now ≡ map stamped batch.now }
    ensures { IfOk result (λ pieces. flat_map rows_of_piece pieces.items ≡ batch.now) }
{
    let mut pieces = Vec::new(alloc);
    for at in 0..batch.len() {
        let piece = piece_of(&batch[at].labels, &samples[at..at + 1]);
        pieces.push(piece)?;
    }
    Ok(pieces)
}

// ---- parts

/// The samples of all series of each part.
pub(crate) fn read_parts(
    alloc: Global,
    parts: &[Rc<MemPart>],
) -> Result<List<List<List<Stamped>>>, AllocError>
    ensures { IfOk result (λ read. AreRead (map (λ part. part.value) parts.now) read) }
{
    let mut read = List::new(alloc);
    for part in parts {
        let samples = read_part(alloc, part)?;
        read.push(samples)?;
    }
    Ok(read)
}

/// The samples of all series of a part.
fn read_part(alloc: Global, part: &MemPart) -> Result<List<List<Stamped>>, AllocError>
    ensures { IfOk result (λ read. Says part.now (λ all. map samples_of all ≡ read)) }
{
    let bytes = part.image();
    let count = part.index().sets().len() as u64;
    let mut read = List::new(alloc);
    for ordinal in 0..count {
        let said = part.entry(ordinal);
        let samples = read_blocks(alloc, bytes, &said)?;
        read.push(samples)?;
    }
    Ok(read)
}

/// A piece for each series of each part, of the samples that were read of it.
pub(crate) fn pieces_of_parts<'a>(
    alloc: Global,
    parts: &'a [Rc<MemPart>],
    read: &'a [List<List<Stamped>>],
) -> Result<Vec<Piece<'a>>, AllocError>
    requires { AreRead (map (λ part. part.value) parts.now) read.now }
    ensures { IfOk result
        (λ pieces. (alls : List (List Stored))
        → AllZip SaysAll (map (λ part. part.value) parts.now) alls
        → read.now ≡ map (map samples_of) alls
        → flat_map rows_of_piece pieces.items ≡ flat_map rows_in alls) }
{
    let mut pieces = Vec::new(alloc);
    for at in 0..parts.len() {
        put_pieces(&mut pieces, parts[at].index().sets(), read[at].as_slice())?;
    }
    Ok(pieces)
}

/// Appends a piece for each label set, of the samples beside it.
fn put_pieces<'a>(
    pieces: &mut Vec<Piece<'a>>,
    sets: &'a [Labels],
    samples: &'a [List<Stamped>],
) -> Result<(), AllocError>
    requires { length sets.now ≡ length samples.now }
    ensures { OnOk result (flat_map rows_of_piece pieces.new.items
        ≡ flat_map rows_of_piece pieces.old.items ++ rows_beside sets.now samples.now) }
{
    for at in 0..sets.len() {
        let piece = piece_of(&sets[at], samples[at].as_slice());
        pieces.push(piece)?;
    }
    Ok(())
}
