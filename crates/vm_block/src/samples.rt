//! What a block says of its samples: their order and their exponent.
ghost use Rattle.std.specs.Prelude.{◌≡◌, ◌≤◌, ◌↔◌, IsTrue, length, ◌<◌, ◌^◌, true, All};
ghost use Rattle.vm_base.specs.Number.{form_of};
ghost use Rattle.vm_base.specs.Sorted.{IsUp};
ghost use Rattle.vm_base.specs.Stamped.{is_in_order};
ghost use Rattle.vm_block.specs.Block.{common_exponent as exponent_of, common_shift as shift_of_all, own_shift as own_of, lesser as lesser_of, values_of};
ghost use Rattle.vm_block.specs.Cut.{AreOneBlock, fit_one_block};
ghost use Rattle.vm_block.specs.inner.Reading.{never_falls, InShifts};

use crate::cutting::block_len;
use vm_base::limits::MAX_TIME;
use vm_base::{Sample, Stamped};

/// Whether these samples can be a block: 1 to 8,192, each mantissa with at most 18 digits at the
/// exponent that all share, in order, with times below 2^48. So it is with each block of `cut`
/// whose samples are in order and early enough.
pub fn are_one_block(samples: &[Stamped]) -> bool
    ensures { IsTrue result ↔ AreOneBlock samples.now }
{
    fill_one_block(samples) && are_in_order(samples) && are_early(samples)
}

/// Whether one block takes all of these samples, of which there are some.
fn fill_one_block(samples: &[Stamped]) -> bool
    ensures { IsTrue result ↔ ((1 ≤ length samples.now) × (fit_one_block samples.now ≡ true)) }
{
    if samples.is_empty() {
        return false;
    }
    block_len(samples) == samples.len()
}

/// Whether all times are below 2^48.
fn are_early(samples: &[Stamped]) -> bool
    ensures { IsTrue result ↔ All (λ s. s.time < 2 ^ 48) samples.now }
{
    samples.iter().all(|sample| sample.time <= MAX_TIME)
}

/// Whether each sample may follow the one before it.
pub(crate) fn are_in_order(samples: &[Stamped]) -> bool
    ensures { IsTrue result ↔ IsUp is_in_order samples.now }
{
    match samples.split_first() {
        None => true,
        Some((first, more)) => never_falls(*first, more),
    }
}

/// The same, of a first sample and those after it.
fn never_falls(first: Stamped, samples: &[Stamped]) -> bool
    ensures { result ≡ never_falls first samples.now }
{
    let mut last = first;
    for sample in samples {
        if !last.is_in_order(*sample) {
            return false;
        }
        last = *sample;
    }
    true
}

/// The exponent of a block with these samples: the least one of the values that aren't zero, and 0
/// where all are.
pub(crate) fn common_exponent(samples: &[Stamped]) -> i16
    ensures { result ≡ exponent_of (values_of samples.now) }
{
    common_shift(samples) as i16 - 1000
}

/// The same exponent plus 1000.
pub(crate) fn common_shift(samples: &[Stamped]) -> u16
    ensures value { result ≡ shift_of_all (values_of samples.now) }
    ensures low { 650 ≤ result }
    ensures high { result ≤ 1350 }
{
    let mut least = None;
    for sample in samples {
        least = lesser(least, own_shift(sample.value));
    }
    least.unwrap_or(1000)
}

/// The exponent of a value in normal form plus 1000, none where it is zero.
fn own_shift(value: Sample) -> Option<u16>
    ensures value { result ≡ own_of value }
    ensures range { InShifts result }
{
    if value == Sample::ZERO {
        None
    } else {
        Some(shift_of(value))
    }
}

/// The exponent of a value in normal form plus 1000.
pub(crate) fn shift_of(value: Sample) -> u16
    ensures value { result ≡ (form_of value).shift }
    ensures low { 650 ≤ result }
    ensures high { result ≤ 1350 }
{
    (value.e() + 1000) as u16
}

/// The lesser one of two shifts that may be missing.
fn lesser(one: Option<u16>, other: Option<u16>) -> Option<u16>
    requires one { InShifts one }
    requires other { InShifts other }
    ensures value { result ≡ lesser_of one other }
    ensures range { InShifts result }
{
    match (one, other) {
        (None, _) => other,
        (Some(shift), None) => Some(shift),
        (Some(shift), Some(other)) => Some(shift.min(other)),
    }
}
