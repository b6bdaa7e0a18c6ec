//! The rows of a series.

ghost use Rattle.std.specs.Prelude.{◌≡◌, ◌++◌, ◌∷◌, [], length, map, IfOk, OnOk};
ghost use Rattle.vm_jsonline.specs.Parts.{Part};
ghost use Rattle.vm_jsonline.specs.Reading.{all_members, only_part, parts_at, parts_rows, rows_reading};
ghost use Rattle.vm_jsonline.specs.Series.{once, is_text, kept, rows_of, series_rows};
ghost use Rattle.vm_jsonline.specs.inner.Stop.{Gives};
ghost use Rattle.vm_jsonline.specs.Strings.{string_reading};
ghost use Rattle.vm_labels.specs.Labels.{built};

use crate::parts::next_member;
use crate::stop::Stop;
use crate::strings::string_text;
use crate::values::{read_pairs, read_samples, read_times};
use std::alloc::{AllocError, Global};
use vm_base::{List, Sample};
use vm_labels::{LabelFault, Labels, Pair, Row};

/// A member of the line: what stands between the quotes of its key, and a text that begins with its
/// value.
#[derive(Clone, Copy)]
struct Part<'a> {
    key: &'a [u8],
    value: &'a [u8],
}

/// The rows of a text that is known to be JSON, after any white space.
#[tactic(auto, unfolding(crate::specs::Reading::rows_reading))]
pub(crate) fn read_rows(alloc: Global, text: &[u8]) -> Result<List<Row>, Stop>
    ensures { Gives (λ rows. rows) result (rows_reading text.now) }
{
    match text {
        [b'{', inner @ ..] => {
            let parts = parts_inside(alloc, inner)?;
            parts_rows(alloc, &parts)
        }
        _ => Err(Stop::Faulty),
    }
}

fn parts_inside<'a>(alloc: Global, text: &'a [u8]) -> Result<Vec<Part<'a>>, AllocError>
    ensures { IfOk result
        (λ parts. map (λ p. record { key = p.key.now; value = p.value.now }) parts.items
        ≡ all_members text.now) }
{
    let mut parts = Vec::new(alloc);
    let mut rest = text;
    for _member in 0..text.len() {
        let Some(member) = next_member(rest) else {
            return Ok(parts);
        };
        parts.push(Part {
            key: member.key,
            value: member.value,
        })?;
        rest = member.rest;
    }
    Ok(parts)
}

#[tactic(auto, unfolding(crate::specs::Reading::parts_rows))]
fn parts_rows(alloc: Global, parts: &[Part<'_>]) -> Result<List<Row>, Stop>
    ensures { Gives (λ rows. rows) result
        (parts_rows (map (λ p. record { key = p.key.now; value = p.value.now }) parts.now)) }
{
    let metric = only_part(alloc, parts, "metric")?;
    let values = only_part(alloc, parts, "values")?;
    let timestamps = only_part(alloc, parts, "timestamps")?;
    let pairs = read_pairs(alloc, metric)?;
    let samples = read_samples(alloc, values)?;
    let times = read_times(alloc, timestamps)?;
    let labels = kept_labels(alloc, pairs)?;
    series_rows(alloc, &labels, samples.as_slice(), times.as_slice())
}

/// The value of the one member with this key.
#[tactic(auto, unfolding(crate::specs::Reading::only_part))]
fn only_part<'a>(alloc: Global, parts: &[Part<'a>], name: &str) -> Result<&'a [u8], Stop>
    ensures { Gives (λ value. value.now) result
        (only_part name.now
        (map (λ p. record { key = p.key.now; value = p.value.now }) parts.now)) }
{
    let mut found = None;
    for part in parts {
        if is_key(alloc, part.key, name)? {
            if found.is_some() {
                return Err(Stop::Faulty);
            }
            found = Some(part.value);
        }
    }
    match found {
        Some(value) => Ok(value),
        None => Err(Stop::Faulty),
    }
}

/// Whether what stands between quotes is this name.
fn is_key(alloc: Global, raw: &[u8], name: &str) -> Result<bool, AllocError>
    ensures { IfOk result (λ is. is ≡ is_text name.now (string_reading raw.now)) }
{
    match string_text(alloc, raw)? {
        Some(text) => Ok(text.as_str() == name),
        None => Ok(false),
    }
}

/// The label set of these pairs, where they make one within the limits.
fn kept_labels(alloc: Global, pairs: List<Pair>) -> Result<Labels, Stop>
    ensures { Gives (λ labels. labels) result (kept (built pairs)) }
{
    let labels = match Labels::build(alloc, pairs) {
        Ok(labels) => labels,
        Err(LabelFault::Memory) => return Err(Stop::Memory),
        Err(_) => return Err(Stop::Faulty),
    };
    if labels.limit().is_some() {
        return Err(Stop::Faulty);
    }
    Ok(labels)
}

/// The rows of values and times, which have to be as many.
fn series_rows(
    alloc: Global,
    labels: &Labels,
    samples: &[Option<Sample>],
    times: &[u64],
) -> Result<List<Row>, Stop>
    ensures { Gives (λ rows. rows) result (series_rows samples.now times.now labels.now) }
{
    if samples.len() != times.len() {
        return Err(Stop::Faulty);
    }
    Ok(rows(alloc, labels, samples, times)?)
}

/// A row for each item that has a value.
fn rows(
    alloc: Global,
    labels: &Labels,
    samples: &[Option<Sample>],
    times: &[u64],
) -> Result<List<Row>, AllocError>
    requires { length samples.now ≡ length times.now }
    ensures { IfOk result (λ rows. rows ≡ rows_of labels.now samples.now times.now) }
{
    let mut rows = List::new(alloc);
    for (at, sample) in samples.iter().enumerate() {
        push_row(alloc, &mut rows, labels, *sample, times[at])?;
    }
    Ok(rows)
}

/// Adds a row, where there is a value.
fn push_row(
    alloc: Global,
    rows: &mut List<Row>,
    labels: &Labels,
    sample: Option<Sample>,
    time: u64,
) -> Result<(), AllocError>
    ensures { OnOk result (rows.new ≡ rows.old ++ rows_of labels.now (sample ∷ []) (time ∷ [])) }
{
    if let Some(value) = sample {
        let labels = copied(alloc, labels)?;
        rows.push(Row {
            labels,
            time,
            value,
        })?;
    }
    Ok(())
}

fn copied(alloc: Global, labels: &Labels) -> Result<Labels, AllocError>
    ensures { IfOk result (λ copy. copy ≡ labels.now) }
{
    match labels.copy(alloc) {
        Ok(copy) => Ok(copy),
        Err(_) => Err(AllocError),
    }
}
