//! A block written as bytes.
ghost use Rattle.std.specs.Prelude.{◌≡◌, ◌++◌, ◌≤◌, ◌<◌, ◌^◌, ◌*◌, ◌-◌, ◌-ℤ◌, ℤ, pos, true, Some, IfOk, All, List, length, map, slice_get, unsigned_abs};
ghost use Rattle.std.specs.List.{list_all};
ghost use Rattle.vm_base.specs.Number.{signed as signed_of};
ghost use Rattle.vm_base.specs.Sample.{is_sample};
ghost use Rattle.vm_codec.specs.Coding.{IsColumn, IsInBounds, chosen};
ghost use Rattle.vm_block.specs.Block.{common_shift as shift_of_all, own_shift, lesser, times_of, values_of};
ghost use Rattle.vm_block.specs.Cut.{AreOneBlock, has_18_digits, share_exponent};
ghost use Rattle.vm_block.specs.Header.{header_bytes};
ghost use Rattle.vm_block.specs.inner.Reading.{raised_by};
ghost use Rattle.vm_block.specs.Written.{IsWritten};

use crate::header::{BlockHeader, HEADER_LEN, write_header};
use crate::samples::{common_shift, shift_of};
use std::alloc::{AllocError, Global};
use vm_base::limits::MAX_BLOCK_SAMPLES;
use vm_base::{List, Sample, Stamped};
use vm_codec::{Coding, MAX_COLUMN, MAX_INTEGER, choose, encode};

/// A column that is written.
#[derive(Drop)]
struct Column {
    coding: Coding,
    bytes: Vec<u8>,
}

/// The bytes of a block of these samples, header and body. They are one block of `cut`, in order,
/// with times below 2^48, as `are_one_block` tests.
pub fn encode_block(alloc: Global, samples: &[Stamped]) -> Result<List<u8>, AllocError>
    requires { AreOneBlock samples.now }
    ensures { IfOk result (λ bytes. IsWritten bytes samples.now) }
{
    let shift = common_shift(samples);
    let times = stamps(alloc, samples)?;
    let mantissas = mantissas(alloc, samples, shift)?;
    let times = write_column(alloc, &times)?;
    let values = write_column(alloc, &mantissas)?;
    let header = header_of(samples, shift, &mantissas, &times, &values);
    assemble(alloc, &header, &times.bytes, &values.bytes)
}

/// The header of a block of samples and their columns.
fn header_of(
    samples: &[Stamped],
    shift: u16,
    mantissas: &[i64],
    times: &Column,
    values: &Column,
) -> BlockHeader
    requires some { 1 ≤ length samples.now }
    requires few { length samples.now ≤ MAX_BLOCK_SAMPLES }
    requires shift { shift ≤ 1350 }
    requires mantissas { 1 ≤ length mantissas.now }
    requires times { length times.now.bytes.items ≤ MAX_COLUMN }
    requires values { length values.now.bytes.items ≤ MAX_COLUMN }
    ensures count { result.count ≡ length samples.now }
    ensures times { result.times ≡ times.now.coding }
    ensures values { result.values ≡ values.now.coding }
    ensures exponent { result.exponent ≡ pos shift -ℤ pos 1000 }
    ensures first_time { slice_get (times_of samples.now) 0 ≡ Some (pos result.first_time) }
    ensures last_time { slice_get (times_of samples.now) (length samples.now - 1)
        ≡ Some (pos result.last_time) }
    ensures first_m { slice_get mantissas.now 0 ≡ Some result.first_m }
    ensures times_len { result.times_len ≡ length times.now.bytes.items }
    ensures values_len { result.values_len ≡ length values.now.bytes.items }
{
    BlockHeader {
        count: samples.len() as u16,
        times: times.coding,
        values: values.coding,
        exponent: shift as i16 - 1000,
        first_time: samples[0].time,
        last_time: samples[samples.len() - 1].time,
        first_m: mantissas[0],
        times_len: times.bytes.len() as u32,
        values_len: values.bytes.len() as u32,
    }
}

/// The bytes of a header and of two columns, one after the other.
fn assemble(
    alloc: Global,
    header: &BlockHeader,
    times: &[u8],
    values: &[u8],
) -> Result<List<u8>, AllocError>
    requires times { length times.now ≤ MAX_COLUMN }
    requires values { length values.now ≤ MAX_COLUMN }
    ensures { IfOk result (λ bytes. bytes ≡ header_bytes header.now ++ (times.now ++ values.now)) }
{
    let mut front = [0; 40];
    write_header(header, &mut front);
    let len = HEADER_LEN + times.len() + values.len();
    let mut bytes = Vec::with_capacity(alloc, len)?;
    bytes.extend_from_slice(&front)?;
    bytes.extend_from_slice(times)?;
    bytes.extend_from_slice(values)?;
    Ok(List::from_vec(bytes))
}

/// The column of these values, in the coding that is chosen for them.
fn write_column(alloc: Global, values: &[i64]) -> Result<Column, AllocError>
    requires some { 1 ≤ length values.now }
    requires few { length values.now ≤ MAX_BLOCK_SAMPLES }
    requires bounds { All IsInBounds values.now }
    ensures coding { IfOk result (λ column. column.coding ≡ chosen values.now) }
    ensures bytes { IfOk result (λ column. (first : ℤ) → slice_get values.now 0 ≡ Some first
        → IsColumn column.coding first (length values.now) column.bytes.items values.now) }
    ensures len { IfOk result (λ column. length column.bytes.items ≤ MAX_COLUMN) }
{
    let coding = choose(values);
    let mut bytes = vec![in alloc; 0u8; MAX_INTEGER * values.len()]?;
    let len = encode(coding, values, &mut bytes);
    bytes.truncate(len);
    Ok(Column { coding, bytes })
}

/// The times of samples.
fn stamps(alloc: Global, samples: &[Stamped]) -> Result<Vec<i64>, AllocError>
    requires { All (λ s. s.time < 2 ^ 48) samples.now }
    ensures { IfOk result (λ stamps. stamps.items ≡ times_of samples.now) }
{
    let mut stamps = Vec::with_capacity(alloc, samples.len())?;
    for sample in samples {
        stamps.push(sample.time as i64)?;
    }
    Ok(stamps)
}

/// The mantissas of samples at the exponent of their block, which is given plus 1000.
fn mantissas(alloc: Global, samples: &[Stamped], shift: u16) -> Result<Vec<i64>, AllocError>
    requires shift { shift ≡ shift_of_all (values_of samples.now) }
    requires share { share_exponent (values_of samples.now) ≡ true }
    ensures values { IfOk result (λ ms. values_of samples.now ≡ map (raised_by shift) ms.items) }
    ensures bounds { IfOk result (λ ms. All IsInBounds ms.items) }
    ensures samples { IfOk result (λ ms. list_all is_sample (values_of samples.now) ≡ true) }
{
    let mut mantissas = Vec::with_capacity(alloc, samples.len())?;
    for sample in samples {
        mantissas.push(mantissa(sample.value, shift))?;
    }
    Ok(mantissas)
}

/// The mantissa of a value at an exponent plus 1000 at which it has at most 18 digits.
fn mantissa(value: Sample, shift: u16) -> i64
    requires least { lesser (Some shift) (own_shift value) ≡ Some shift }
    requires digits { has_18_digits shift value ≡ true }
    ensures value { value ≡ raised_by shift result }
    ensures bound { IsInBounds result }
    ensures sample { is_sample value ≡ true }
{
    let m = value.m();
    if m == 0 {
        return 0;
    }
    with_sign(m < 0, raise(m.unsigned_abs(), shift_of(value) - shift))
}

/// A size with zeros after it.
fn raise(size: u64, noughts: u16) -> u64
    requires some { 0 < size }
    requires few { size * 10 ^ noughts < 10 ^ 18 }
    ensures { result ≡ size * 10 ^ noughts }
{
    size * 10u64.pow(u32::from(noughts))
}

fn with_sign(negative: bool, size: u64) -> i64
    requires { size < 10 ^ 18 }
    ensures value { result ≡ signed_of negative size }
    ensures bound { IsInBounds result }
{
    if negative {
        -(size as i64)
    } else {
        size as i64
    }
}
