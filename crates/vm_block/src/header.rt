//! What stands before a block's columns, as 40 bytes.
ghost use Rattle.std.specs.Prelude.{◌≡◌, ◌≤◌, ◌+◌, true, false, Some, None, Ok, IfOk, IfErr, OnOk, slice_index, length, take, ◌++◌};
ghost use Rattle.std.specs.Int.{w16, w32, w64, from_be_bytes};
ghost use Rattle.vm_codec.specs.Coding.{coding_of, in_bounds};
ghost use Rattle.vm_block.specs.inner.Reading.{AreFields};
ghost use Rattle.vm_block.specs.Header.{IsHeader, header_bytes, field_rules, len_rules, first_broken, field, is_count, is_exponent, is_time, is_last_time, is_column_len};

use vm_base::Broken;
use vm_base::limits::{MAX_BLOCK_SAMPLES, MAX_SAMPLE_EXPONENT, MAX_TIME, MIN_SAMPLE_EXPONENT};
use vm_codec::{Coding, MAX_COLUMN, are_in_bounds};

/// How many bytes a header takes.
pub const HEADER_LEN: usize = 40;

/// What stands before the columns of a block.
#[derive(Clone, Copy, Debug, PartialEq, Eq)]
pub struct BlockHeader {
    /// How many samples the block has, 1 to 8,192.
    pub count: u16,
    /// The coding of the column of times.
    pub times: Coding,
    /// The coding of the column of mantissas.
    pub values: Coding,
    /// The exponent of ten of all values, from -350 to 350: the least one of those that aren't
    /// zero, in normal form.
    pub exponent: i16,
    /// The first time, in ms, below 2^48.
    pub first_time: u64,
    /// The last time, in ms, below 2^48 and not below the first.
    pub last_time: u64,
    /// The first mantissa, strictly between -10^18 and 10^18.
    pub first_m: i64,
    /// How many bytes the column of times takes, at most 81,920.
    pub times_len: u32,
    /// How many bytes the column of mantissas takes, at most 81,920.
    pub values_len: u32,
}

/// The header that these bytes are. The codings of a header are 2, 3, 5 or 6, its two bytes at 6
/// are 0, and its other fields keep the ranges of `BlockHeader`.
///
/// `Broken` names the first byte of the first field that breaks its rule.
pub fn read_header(bytes: &[u8; 40]) -> Result<BlockHeader, Broken>
    // What `Ok` holds.
    ensures header { IfOk result (λ h. IsHeader h × (header_bytes h ≡ bytes.now)) }
    ensures only { (h : BlockHeader) → IsHeader h → header_bytes h ≡ bytes.now → result ≡ Ok h }
    // When the error comes.
    ensures broken { IfErr result (λ e. first_broken (field_rules bytes.now) ≡ Some e.at) }
{
    read_fields(bytes)
}

/// Reads each field at its place, and sees that it keeps its rule, in the order of the places.
fn read_fields(bytes: &[u8; 40]) -> Result<BlockHeader, Broken>
    ensures fields { IfOk result (λ h. AreFields bytes.now h) }
    ensures broken { IfErr result (λ e. first_broken (field_rules bytes.now) ≡ Some e.at) }
{
    let count = u16_at(bytes, 0);
    check(is_count(count), 0)?;
    let times = coding_at(bytes, 2)?;
    let values = coding_at(bytes, 3)?;
    let exponent = u16_at(bytes, 4).cast_signed();
    check(is_exponent(exponent), 4)?;
    check(u16_at(bytes, 6) == 0, 6)?;
    let first_time = u64_at(bytes, 8);
    check(is_time(first_time), 8)?;
    let last_time = u64_at(bytes, 16);
    check(is_last_time(first_time, last_time), 16)?;
    let first_m = u64_at(bytes, 24).cast_signed();
    check(is_mantissa(first_m), 24)?;
    match read_lens(bytes) {
        Ok((times_len, values_len)) => Ok(BlockHeader {
            count,
            times,
            values,
            exponent,
            first_time,
            last_time,
            first_m,
            times_len,
            values_len,
        }),
        Err(broken) => Err(broken),
    }
}

/// The lengths of the columns, which stand last.
fn read_lens(bytes: &[u8; 40]) -> Result<(u32, u32), Broken>
    ensures times { IfOk result (λ lens. lens.0 ≡ from_be_bytes w32 (field 4 32 bytes.now)) }
    ensures values { IfOk result (λ lens. lens.1 ≡ from_be_bytes w32 (field 4 36 bytes.now)) }
    ensures kept { IfOk result
        (λ lens. (is_column_len lens.0 ≡ true) × (is_column_len lens.1 ≡ true)) }
    ensures broken { IfErr result (λ e. first_broken (len_rules bytes.now) ≡ Some e.at) }
{
    let times_len = u32_at(bytes, 32);
    check(is_column_len(times_len), 32)?;
    let values_len = u32_at(bytes, 36);
    check(is_column_len(values_len), 36)?;
    Ok((times_len, values_len))
}

/// Broken at a field's place where its rule isn't kept.
fn check(is_kept: bool, at: u64) -> Result<(), Broken>
    ensures ok { OnOk result (is_kept ≡ true) }
    ensures broken { IfErr result (λ e. (is_kept ≡ false) × (e.at ≡ at)) }
{
    if is_kept { Ok(()) } else { Err(Broken { at }) }
}

fn coding_at(bytes: &[u8; 40], at: u8) -> Result<Coding, Broken>
    requires { at + 1 ≤ 40 }
    ensures ok { IfOk result (λ coding. coding_of (slice_index bytes.now at) ≡ Some coding) }
    ensures broken { IfErr result
        (λ e. (coding_of (slice_index bytes.now at) ≡ None) × (e.at ≡ at)) }
{
    Coding::of_number(bytes[at as usize]).ok_or(Broken { at: at as u64 })
}

fn u16_at(bytes: &[u8; 40], at: usize) -> u16
    requires { at + 2 ≤ 40 }
    ensures { result ≡ from_be_bytes w16 (field 2 at bytes.now) }
{
    let mut field = [0; 2];
    field.copy_from_slice(&bytes[at..at + 2]);
    u16::from_be_bytes(field)
}

fn u32_at(bytes: &[u8; 40], at: usize) -> u32
    requires { at + 4 ≤ 40 }
    ensures { result ≡ from_be_bytes w32 (field 4 at bytes.now) }
{
    let mut field = [0; 4];
    field.copy_from_slice(&bytes[at..at + 4]);
    u32::from_be_bytes(field)
}

fn u64_at(bytes: &[u8; 40], at: usize) -> u64
    requires { at + 8 ≤ 40 }
    ensures { result ≡ from_be_bytes w64 (field 8 at bytes.now) }
{
    let mut field = [0; 8];
    field.copy_from_slice(&bytes[at..at + 8]);
    u64::from_be_bytes(field)
}

fn is_count(count: u16) -> bool
    ensures { result ≡ is_count count }
{
    count >= 1 && count as u64 <= MAX_BLOCK_SAMPLES
}

fn is_exponent(exponent: i16) -> bool
    ensures { result ≡ is_exponent exponent }
{
    exponent >= MIN_SAMPLE_EXPONENT && exponent <= MAX_SAMPLE_EXPONENT
}

fn is_time(time: u64) -> bool
    ensures { result ≡ is_time time }
{
    time <= MAX_TIME
}

fn is_last_time(first: u64, last: u64) -> bool
    ensures { result ≡ is_last_time first last }
{
    is_time(last) && first <= last
}

fn is_mantissa(m: i64) -> bool
    ensures { result ≡ in_bounds m }
{
    are_in_bounds(&[m])
}

fn is_column_len(len: u32) -> bool
    ensures { result ≡ is_column_len len }
{
    len as usize <= MAX_COLUMN
}

/// Writes the bytes of a header.
pub fn write_header(header: &BlockHeader, into: &mut [u8; 40])
    ensures { into.new ≡ header_bytes header.now }
{
    put(into, 0, &header.count.to_be_bytes());
    put(into, 2, &[header.times.number(), header.values.number()]);
    put(into, 4, &header.exponent.to_be_bytes());
    put(into, 6, &[0, 0]);
    put(into, 8, &header.first_time.to_be_bytes());
    put(into, 16, &header.last_time.to_be_bytes());
    put(into, 24, &header.first_m.to_be_bytes());
    put(into, 32, &header.times_len.to_be_bytes());
    put(into, 36, &header.values_len.to_be_bytes());
}

/// Writes the bytes of a field to its place.
fn put(into: &mut [u8; 40], at: usize, field: &[u8])
    requires { at + length field.now ≤ 40 }
    ensures { take (at + length field.now) into.new ≡ take at into.old ++ field.now }
{
    into[at..at + field.len()].copy_from_slice(field);
}
