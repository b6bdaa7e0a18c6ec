//! A block read from bytes.
ghost use Rattle.std.specs.Prelude.{◌≡◌, ◌≤◌, ◌+◌, ◌-◌, ◌^◌, ◌&&◌, pos, int_le, int_lt, true, false, IfOk, IfErr, OnOk, ℕ, IfSome, IfNone, IsTrue, ◌↔◌, List, negsuc, ◌≤ℤ◌, length, map, slice_get, Some, ⊤};
ghost use Rattle.std.specs.List.{list_all};
ghost use Rattle.vm_base.specs.Sample.{is_sample};
ghost use Rattle.vm_base.specs.Sorted.{IsUp};
ghost use Rattle.vm_base.specs.Stamped.{is_in_order};
ghost use Rattle.vm_base.specs.declared.stamped.Stamped.{Stamped};
ghost use Rattle.vm_codec.specs.Coding.{IsColumn, IsInBounds};
ghost use Rattle.vm_block.specs.Header.{IsHeader};
ghost use Rattle.vm_block.specs.Block.{IsBlock, IsRefusal, Reads, SaysTimes, SaysMantissas, EndsAtLast, rise_from, scaled_by, are_values, times_of, values_of};
ghost use Rattle.vm_block.specs.inner.Reading.{AreStamped, IsColumnFault};

use crate::samples::{are_in_order, common_exponent};
use crate::{BlockFault, BlockHeader};
use std::alloc::{AllocError, Global};
use vm_base::limits::{MAX_BLOCK_SAMPLES, MAX_TIME};
use vm_base::{List, Sample, Stamped};
use vm_codec::{Coding, decode};

/// Where the body of a block begins.
const BODY: u64 = 40;

/// The samples of the block with this header, as `read_header` gives it, and this body, which is as
/// long as both columns together. They are in order.
///
/// `Broken` names a place of the block, counted from the front of its header, by the first of these
/// faults that it has: where the column of times breaks; 40 where times fall or leave 0 to 2^48 -
/// 1; 16 where the last time isn't the header's; where the column of mantissas breaks; 4 where a
/// value is no sample, or the exponent isn't the least one of the values that aren't zero (0 where
/// all are); 24 where values at one time fall.
pub fn decode_block(
    alloc: Global,
    header: &BlockHeader,
    body: &[u8],
) -> Result<List<Stamped>, BlockFault>
    requires header { IsHeader header.now }
    requires len { length body.now ≡ header.now.times_len + header.now.values_len }
    // What `Ok` holds.
    ensures block { IfOk result (λ samples. IsBlock header.now body.now samples) }
    // What is a block is read, unless memory runs out.
    ensures only { (samples : List Stamped) → IsBlock header.now body.now samples
        → Reads result samples }
    // When the error comes.
    ensures broken { IfErr result (λ fault. IsRefusal header.now body.now fault) }
{
    read_block(alloc, header, body)
}

/// The same without the law that what is a block is read.
fn read_block(alloc: Global, header: &BlockHeader, body: &[u8]) -> Result<List<Stamped>, BlockFault>
    requires header { IsHeader header.now }
    requires len { length body.now ≡ header.now.times_len + header.now.values_len }
    ensures block { IfOk result (λ samples. IsBlock header.now body.now samples) }
    ensures broken { IfErr result (λ fault. IsRefusal header.now body.now fault) }
{
    let times = read_times(alloc, header, body)?;
    let mantissas = read_mantissas(alloc, header, body, &times)?;
    let samples = read_samples(alloc, header, body, &times, &mantissas)?;
    if !are_in_order(samples.as_slice()) {
        return Err(BlockFault::Broken { at: 24 });
    }
    Ok(samples)
}

/// The times of a block, which keep their rules.
fn read_times(alloc: Global, header: &BlockHeader, body: &[u8]) -> Result<Vec<i64>, BlockFault>
    requires header { IsHeader header.now }
    requires len { length body.now ≡ header.now.times_len + header.now.values_len }
    ensures times { IfOk result (λ times. SaysTimes header.now body.now times.items) }
    ensures rise { IfOk result (λ times. rise_from (pos 0) times.items ≡ true) }
    ensures last { IfOk result (λ times. EndsAtLast header.now times.items) }
    ensures broken { IfErr result (λ fault. IsRefusal header.now body.now fault) }
{
    let times = read_times_column(alloc, header, body)?;
    check_times(header, &times)?;
    Ok(times)
}

/// The values of the column of times.
fn read_times_column(
    alloc: Global,
    header: &BlockHeader,
    body: &[u8],
) -> Result<Vec<i64>, BlockFault>
    requires header { IsHeader header.now }
    requires len { length body.now ≡ header.now.times_len + header.now.values_len }
    ensures times { IfOk result (λ times. SaysTimes header.now body.now times.items) }
    ensures broken { IfErr result (λ fault. IsRefusal header.now body.now fault) }
{
    let column = &body[..header.times_len as usize];
    let first = header.first_time as i64;
    match read_column(alloc, header.times, first, header.count, column) {
        Ok(times) => Ok(times),
        Err(BlockFault::Broken { at }) => Err(BlockFault::Broken { at: BODY + at }),
        Err(BlockFault::Memory) => Err(BlockFault::Memory),
    }
}

/// The values of a column. A fault's place counts from the column's front.
fn read_column(
    alloc: Global,
    coding: Coding,
    first: i64,
    count: u16,
    column: &[u8],
) -> Result<Vec<i64>, BlockFault>
    requires some { 1 ≤ count }
    requires few { count ≤ MAX_BLOCK_SAMPLES }
    requires bound { IsInBounds first }
    ensures values { IfOk result (λ values. IsColumn coding first count column.now values.items) }
    ensures broken { IfErr result (λ fault. IsColumnFault coding first count column.now fault) }
{
    let mut values = vec![in alloc; 0i64; count as usize]?;
    match decode(coding, first, column, &mut values) {
        Ok(()) => Ok(values),
        Err(broken) => Err(BlockFault::Broken { at: broken.at }),
    }
}

/// Sees that times rise and end with the header's last time.
fn check_times(header: &BlockHeader, times: &[i64]) -> Result<(), BlockFault>
    requires header { IsHeader header.now }
    requires len { length times.now ≡ header.now.count }
    ensures rise { OnOk result (rise_from (pos 0) times.now ≡ true) }
    ensures last { OnOk result (EndsAtLast header.now times.now) }
    ensures broken { IfErr result (λ fault. (body : List ℕ) → SaysTimes header.now body times.now
        → IsRefusal header.now body fault) }
{
    if !rise(times) {
        return Err(BlockFault::Broken { at: BODY });
    }
    if times[header.count as usize - 1] != header.last_time as i64 {
        return Err(BlockFault::Broken { at: 16 });
    }
    Ok(())
}

/// Whether times don't fall and lie from 0 to 2^48 - 1.
fn rise(times: &[i64]) -> bool
    ensures { result ≡ rise_from (pos 0) times.now }
{
    let mut last = 0;
    for time in times {
        if !is_next_time(last, *time) {
            return false;
        }
        last = *time;
    }
    true
}

fn is_next_time(last: i64, time: i64) -> bool
    ensures { result ≡ (int_le last time && int_lt time (pos (2 ^ 48))) }
{
    last <= time && time <= MAX_TIME as i64
}

/// The mantissas of a block with these times.
fn read_mantissas(
    alloc: Global,
    header: &BlockHeader,
    body: &[u8],
    times: &[i64],
) -> Result<Vec<i64>, BlockFault>
    requires header { IsHeader header.now }
    requires len { length body.now ≡ header.now.times_len + header.now.values_len }
    requires times { SaysTimes header.now body.now times.now }
    requires rise { rise_from (pos 0) times.now ≡ true }
    requires last { EndsAtLast header.now times.now }
    ensures column { IfOk result (λ mantissas. SaysMantissas header.now body.now mantissas.items) }
    ensures broken { IfErr result (λ fault. IsRefusal header.now body.now fault) }
{
    let place = header.times_len as usize;
    let column = &body[place..];
    match read_column(alloc, header.values, header.first_m, header.count, column) {
        Ok(mantissas) => Ok(mantissas),
        Err(BlockFault::Broken { at }) => Err(BlockFault::Broken {
            at: BODY + place as u64 + at,
        }),
        Err(BlockFault::Memory) => Err(BlockFault::Memory),
    }
}

/// The samples of a block with these times and mantissas.
fn read_samples(
    alloc: Global,
    header: &BlockHeader,
    body: &[u8],
    times: &[i64],
    mantissas: &[i64],
) -> Result<List<Stamped>, BlockFault>
    requires header { IsHeader header.now }
    requires times { SaysTimes header.now body.now times.now }
    requires rise { rise_from (pos 0) times.now ≡ true }
    requires last { EndsAtLast header.now times.now }
    requires column { SaysMantissas header.now body.now mantissas.now }
    ensures times { IfOk result (λ samples. times_of samples ≡ times.now) }
    ensures values { IfOk result
        (λ samples. values_of samples ≡ map (scaled_by header.now.exponent) mantissas.now) }
    ensures exponent { IfOk result
        (λ samples. are_values header.now.exponent (values_of samples) ≡ true) }
    ensures broken { IfErr result (λ fault. IsRefusal header.now body.now fault) }
{
    let Some(samples) = stamp(alloc, header.exponent, times, mantissas)? else {
        return Err(BlockFault::Broken { at: 4 });
    };
    if common_exponent(samples.as_slice()) != header.exponent {
        return Err(BlockFault::Broken { at: 4 });
    }
    Ok(samples)
}

/// Samples of these times and mantissas, none where a value is no sample.
fn stamp(
    alloc: Global,
    exponent: i16,
    times: &[i64],
    mantissas: &[i64],
) -> Result<Option<List<Stamped>>, AllocError>
    requires len { length times.now ≡ length mantissas.now }
    requires exponent { negsuc 349 ≤ℤ exponent }
    ensures samples { IfOk result
        (λ stamped.
        IfSome stamped (λ samples. AreStamped exponent times.now mantissas.now samples)) }
    ensures none { IfOk result
        (λ stamped.
        IfNone stamped (list_all is_sample (map (scaled_by exponent) mantissas.now) ≡ false)) }
{
    let mut samples = Vec::with_capacity(alloc, times.len())?;
    for place in 0..times.len() {
        let Some(value) = Sample::of(mantissas[place], exponent) else {
            return Ok(None);
        };
        samples.push(Stamped {
            time: times[place].unsigned_abs(),
            value,
        })?;
    }
    Ok(Some(List::from_vec(samples)))
}
