//! The blocks of a part file.
ghost use Rattle.std.specs.Prelude.{◌≡◌, ◌==◌, ◌+◌, ◌^◌, ◌<◌, ◌≤◌, nat_le, length, drop, IfOk, IfErr, OnOk, if◌then◌else◌};
ghost use Rattle.vm_base.specs.Sorted.{last_of};
ghost use Rattle.vm_block.specs.Block.{IsBlock};
ghost use Rattle.vm_block.specs.Header.{IsHeader};
ghost use Rattle.vm_part.specs.Broken.{end_of, first_sample, may_follow};
ghost use Rattle.vm_part.specs.inner.Reading.{HasAllBlocks, HasSeries, HasHeader, IsBlockFault, IsBlocksFault, IsBodyFault, IsSeriesFault, Joins, NoHeader, PlacesRise, may_come};

use crate::{Entry, ReadFault};
use std::alloc::Global;
use vm_base::{Broken, List, Sample, Stamped};
use vm_block::{BlockFault, BlockHeader, HEADER_LEN, decode_block, read_header};

/// What was seen of the blocks of a series.
#[derive(Clone, Copy)]
pub(crate) struct Seen {
    /// How many there are.
    pub blocks: u64,
    /// How many samples they have.
    pub rows: u64,
    /// Their last sample.
    pub last: Option<Stamped>,
}

/// Sees that the blocks of all series stand in a file, up to the entries.
pub(crate) fn check_blocks(
    alloc: Global,
    bytes: &[u8],
    entries_at: u64,
    entries: &[Entry],
) -> Result<(), ReadFault>
    requires within { entries_at ≤ length bytes.now }
    requires places { PlacesRise entries_at entries.now }
    ensures stand { OnOk result (HasAllBlocks bytes.now entries_at entries.now) }
    ensures broken { IfErr result (λ fault. IsBlocksFault bytes.now entries_at entries.now fault) }
{
    'series: for place in 0..entries.len() {
        let end = end_of(entries, place + 1, entries_at);
        check_series(alloc, bytes, entries_at, end, &entries[place])?;
    }
    Ok(())
}

/// Where the blocks of the series before a place end: where those of the next one begin, or all.
fn end_of(entries: &[Entry], place: usize, entries_at: u64) -> u64
    ensures { result ≡ end_of entries_at (drop place entries.now) }
{
    match entries.get(place) {
        Some(following) => following.start,
        None => entries_at,
    }
}

/// Sees that the blocks of a series stand in a file, up to a place.
fn check_series(
    alloc: Global,
    bytes: &[u8],
    entries_at: u64,
    blocks_end: u64,
    entry: &Entry,
) -> Result<(), ReadFault>
    requires start { entry.now.start ≤ blocks_end }
    requires end { blocks_end ≤ entries_at }
    requires within { entries_at ≤ length bytes.now }
    ensures stand { OnOk result (HasSeries bytes.now blocks_end entry.now) }
    ensures broken { IfErr result
        (λ fault. IsSeriesFault bytes.now entries_at blocks_end entry.now fault) }
{
    let mut seen = Seen {
        blocks: 0,
        rows: 0,
        last: None,
    };
    let mut at = entry.start;
    'each: for _ in 0..entry.blocks {
        let rest = &bytes[at as usize..entries_at as usize];
        match check_block(alloc, rest, blocks_end - at, entry, &mut seen) {
            Ok(len) => at += len,
            Err(ReadFault::Broken { at: place }) => {
                let found = at + place;
                return Err(ReadFault::Broken { at: found });
            }
            Err(ReadFault::Memory) => return Err(ReadFault::Memory),
        }
    }
    Ok(())
}

/// How long the block in front of these bytes is, which is then seen too. There is so much room for
/// it.
fn check_block(
    alloc: Global,
    rest: &[u8],
    room: u64,
    entry: &Entry,
    seen: &mut Seen,
) -> Result<u64, ReadFault>
    requires room { room ≤ length rest.now }
    requires few { seen.old.blocks < entry.now.blocks }
    requires rows { seen.old.rows ≤ entry.now.rows }
    ensures joins { IfOk result (λ len. Joins room entry.now rest.now seen.old seen.new len) }
    ensures rows { OnOk result (seen.new.rows ≤ entry.now.rows) }
    ensures broken { IfErr result (λ fault. IsBlockFault room entry.now seen.old rest.now fault) }
{
    let header = read_front(rest)?;
    let left = entry.rows - seen.rows;
    if !may_come(room, left, entry, seen, &header) {
        return Err(ReadFault::Broken { at: 0 });
    }
    let body_len = header.times_len as usize + header.values_len as usize;
    let body = &rest[HEADER_LEN..HEADER_LEN + body_len];
    let samples = read_body(alloc, &header, body)?;
    see(seen, samples.as_slice());
    Ok((HEADER_LEN + body_len) as u64)
}

/// The header in front of these bytes.
fn read_front(rest: &[u8]) -> Result<BlockHeader, Broken>
    ensures header { IfOk result (λ header. HasHeader rest.now header) }
    ensures broken { IfErr result (λ e. NoHeader rest.now e.at) }
{
    if rest.len() < HEADER_LEN {
        return Err(Broken { at: 0 });
    }
    let mut front = [0; 40];
    front.copy_from_slice(&rest[..HEADER_LEN]);
    read_header(&front)
}

/// The samples of a block with this header and this body.
fn read_body(alloc: Global, header: &BlockHeader, body: &[u8]) -> Result<List<Stamped>, ReadFault>
    requires header { IsHeader header.now }
    requires len { length body.now ≡ header.now.times_len + header.now.values_len }
    ensures block { IfOk result (λ samples. IsBlock header.now body.now samples) }
    ensures broken { IfErr result (λ fault. IsBodyFault header.now body.now fault) }
{
    match decode_block(alloc, header, body) {
        Ok(samples) => Ok(samples),
        Err(BlockFault::Broken { at }) => Err(ReadFault::Broken { at }),
        Err(BlockFault::Memory) => Err(ReadFault::Memory),
    }
}

/// Whether a block with this header may stand behind those that were seen, where so many samples of
/// the series are left.
fn may_come(room: u64, left: u64, entry: &Entry, seen: &Seen, header: &BlockHeader) -> bool
    requires header { IsHeader header.now }
    requires few { seen.now.blocks < entry.now.blocks }
    requires rows { seen.now.rows + left ≡ entry.now.rows }
    ensures { result ≡ may_come room entry.now seen.now header.now }
{
    let is_last = seen.blocks + 1 == entry.blocks;
    let len = HEADER_LEN as u64 + u64::from(header.times_len) + u64::from(header.values_len);
    fills(is_last, len, room)
        && may_follow(seen.last, first_sample(header))
        && fills(is_last, u64::from(header.count), left)
        && (seen.blocks > 0 || header.first_time == entry.first_time)
        && (!is_last || header.last_time == entry.last_time)
}

/// Whether something takes no more than there is, and all of it where it is the last.
fn fills(is_last: bool, needed: u64, left: u64) -> bool
    ensures { result ≡ (if is_last then needed == left else nat_le needed left) }
{
    if is_last {
        needed == left
    } else {
        needed <= left
    }
}

/// The first sample of a block with this header, where its value is one of a sample.
fn first_sample(header: &BlockHeader) -> Option<Stamped>
    requires { IsHeader header.now }
    ensures { result ≡ first_sample header.now }
{
    let value = Sample::of(header.first_m, header.exponent)?;
    Some(Stamped {
        time: header.first_time,
        value,
    })
}

/// Whether one sample may follow another, where both are there.
fn may_follow(last: Option<Stamped>, sample: Option<Stamped>) -> bool
    ensures { result ≡ may_follow last sample }
{
    match (last, sample) {
        (Some(last), Some(sample)) => last.is_in_order(sample),
        _ => true,
    }
}

/// Sees the samples of one block more.
fn see(seen: &mut Seen, samples: &[Stamped])
    requires some { 1 ≤ length samples.now }
    requires blocks { seen.old.blocks + 1 < 2 ^ 64 }
    requires rows { seen.old.rows + length samples.now < 2 ^ 64 }
    ensures blocks { seen.new.blocks ≡ seen.old.blocks + 1 }
    ensures rows { seen.new.rows ≡ seen.old.rows + length samples.now }
    ensures last { seen.new.last ≡ last_of samples.now }
{
    seen.blocks += 1;
    seen.rows += samples.len() as u64;
    seen.last = Some(samples[samples.len() - 1]);
}
