//! Pieces, gathered into series: those of one label set stand together once they are in label
//! order.

ghost use Rattle.std.specs.Prelude.{◌≡◌, ◌≤◌, ◌++◌, length, flat_map, IfOk, OnOk};
ghost use Rattle.std.specs.List.{prefix_len};
ghost use Rattle.vm_base.specs.Sorted.{sorted};
ghost use Rattle.vm_base.specs.Stamped.{is_in_order};
ghost use Rattle.vm_base.specs.Thinned.{thinned};
ghost use Rattle.vm_labels.specs.Labels.{label_eq};
ghost use Rattle.vm_series.specs.Series.{rows_of_piece, series_of};
ghost use Rattle.vm_series.specs.inner.Pieces.{InLabelOrder, OfOneSet, samples_of};

use crate::{Piece, Series};
use std::alloc::{AllocError, Global};
use vm_base::{List, Stamped};
use vm_dedup::Dedup;
use vm_labels::Labels;

/// The series of pieces: each label set that has a sample, in label order, with the samples of all
/// its pieces in order. Of each interval of this many ms the last sample stays; at 0 all stay.
pub fn gather(
    alloc: Global,
    mut pieces: Vec<Piece<'_>>,
    interval: u64,
) -> Result<List<Series>, AllocError>
    ensures { IfOk result
        (λ all. all ≡ series_of interval (flat_map rows_of_piece pieces.entry.items)) }
{
    pieces.sort_unstable_by_key(|piece| piece.labels);
    gathered(alloc, &pieces, interval)
}

/// The series of pieces in label order.
fn gathered(alloc: Global, pieces: &[Piece<'_>], interval: u64) -> Result<List<Series>, AllocError>
    requires { InLabelOrder pieces.now }
    ensures { IfOk result (λ all. all ≡ series_of interval (flat_map rows_of_piece pieces.now)) }
{
    let mut all = List::new(alloc);
    let mut at = 0;
    while at < pieces.len() {
        let rest = &pieces[at..];
        let labels = rest[0].labels;
        let len = group_len(labels, rest);
        put_group(alloc, &mut all, labels, &rest[..len], interval)?;
        at += len;
    }
    Ok(all)
}

/// How many pieces at the front are of a label set.
fn group_len(labels: &Labels, pieces: &[Piece<'_>]) -> usize
    ensures value { result ≡ prefix_len (λ piece. label_eq piece.labels.now labels.now) pieces.now }
    ensures within { result ≤ length pieces.now }
{
    let mut len = 0;
    for piece in pieces {
        if piece.labels != labels {
            return len;
        }
        len += 1;
    }
    len
}

/// Puts the series of a label set's pieces to the end, where they have a sample.
fn put_group(
    alloc: Global,
    all: &mut List<Series>,
    labels: &Labels,
    group: &[Piece<'_>],
    interval: u64,
) -> Result<(), AllocError>
    requires { OfOneSet labels.now group.now }
    ensures { OnOk result
        (all.new ≡ all.old ++ series_of interval (flat_map rows_of_piece group.now)) }
{
    let samples = samples_of(alloc, group)?;
    if samples.is_empty() {
        return Ok(());
    }
    all.push(Series {
        labels: copied(alloc, labels)?,
        samples: thinned(alloc, &samples, interval)?,
    })
}

/// The samples of pieces, in order.
fn samples_of(alloc: Global, pieces: &[Piece<'_>]) -> Result<Vec<Stamped>, AllocError>
    ensures { IfOk result (λ all. all.items ≡ sorted is_in_order (samples_of pieces.now)) }
{
    let mut all = Vec::new(alloc);
    for piece in pieces {
        all.extend_from_slice(piece.samples)?;
    }
    all.sort()?;
    Ok(all)
}

/// The samples that stay of samples in order.
fn thinned(alloc: Global, samples: &[Stamped], interval: u64) -> Result<List<Stamped>, AllocError>
    ensures { IfOk result (λ kept. kept ≡ thinned interval samples.now) }
{
    let mut kept = List::new(alloc);
    let mut dedup = Dedup::new(interval);
    for sample in samples {
        if let Some(last) = dedup.push(*sample) {
            kept.push(last)?;
        }
    }
    if let Some(last) = dedup.end() {
        kept.push(last)?;
    }
    Ok(kept)
}

fn copied(alloc: Global, labels: &Labels) -> Result<Labels, AllocError>
    ensures { IfOk result (λ copy. copy ≡ labels.now) }
{
    match labels.copy(alloc) {
        Ok(copy) => Ok(copy),
        Err(_) => Err(AllocError),
    }
}
