//! Blocks written, read, and copied as samples.
ghost use Rattle.vm_block.specs.Cut.{AreOneBlock};

use std::alloc::{AllocError, Global};
use vm_base::{Sample, Stamped};
use vm_block::{are_one_block, cut, decode_block, encode_block, read_header};

/// How many samples a series has: those of 16 blocks.
const SAMPLES: u64 = 131_072;

/// The first time, in ms, and how far the others lie apart.
const FIRST: u64 = 1_700_000_000_000;

const STEP: u64 = 15_000;

/// Calls what the name says on each block of a series of this kind, so many times. Gives how many
/// samples and bytes of blocks that were.
pub(crate) fn run(
    alloc: Global,
    name: &str,
    kind: &str,
    rounds: u32,
) -> Result<String, AllocError> {
    let samples = series(alloc, kind)?;
    if samples.is_empty() {
        return Ok(String::new(alloc));
    }
    let mut bytes = 0u64;
    for block in cut(alloc, &samples)?.as_slice() {
        bytes = bytes.saturating_add(on_block(alloc, name, block.as_slice(), rounds)?);
    }
    let moved = (samples.len() as u64).saturating_mul(u64::from(rounds));
    format!(in alloc; "samples {moved} bytes {bytes}")
}

/// Calls what the name says on a block, so many times, and gives the bytes of all.
fn on_block(alloc: Global, name: &str, block: &[Stamped], rounds: u32) -> Result<u64, AllocError> {
    if !are_one_block(block) {
        return Ok(0);
    }
    match name {
        "encode" => encode(alloc, block, rounds),
        "decode" => decode(alloc, block, rounds),
        "move" => copy(alloc, block, rounds),
        _ => Ok(0),
    }
}

/// The samples of a series of a kind, none where there is no such kind.
fn series(alloc: Global, kind: &str) -> Result<Vec<Stamped>, AllocError> {
    let mut samples = Vec::with_capacity(alloc, SAMPLES as usize)?;
    let mut chance = 1u64;
    let mut count = 0u64;
    for place in 0..SAMPLES {
        chance = chance
            .wrapping_mul(6_364_136_223_846_793_005)
            .wrapping_add(1_442_695_040_888_963_407);
        let number = chance >> 4;
        count = count.saturating_add(number % 1_000);
        let value = match kind {
            "constant" => Sample::of(7, 0),
            "counter" => Sample::of(signed(count), 0),
            "gauge" => Sample::of(signed(number % 1_000), -1),
            "random" => Sample::of(signed(number % 1_000_000_000_000_000_000), -6),
            _ => return Ok(Vec::new(alloc)),
        };
        samples.push(Stamped {
            time: FIRST + STEP * place,
            value: value.unwrap_or(Sample::ZERO),
        })?;
    }
    Ok(samples)
}

fn signed(number: u64) -> i64 {
    i64::try_from(number).unwrap_or(0)
}

/// Writes a block so many times, and gives the bytes of all.
fn encode(alloc: Global, block: &[Stamped], rounds: u32) -> Result<u64, AllocError>
    requires { AreOneBlock block.now }
{
    let mut bytes = 0u64;
    for _round in 0..rounds {
        bytes = bytes.saturating_add(encode_block(alloc, block)?.len() as u64);
    }
    Ok(bytes)
}

/// Reads a block so many times, and gives the bytes of all.
fn decode(alloc: Global, block: &[Stamped], rounds: u32) -> Result<u64, AllocError>
    requires { AreOneBlock block.now }
{
    let block = encode_block(alloc, block)?;
    let block = block.as_slice();
    let mut bytes = 0u64;
    for _round in 0..rounds {
        if is_read(alloc, block) {
            bytes = bytes.saturating_add(block.len() as u64);
        }
    }
    Ok(bytes)
}

/// Whether bytes are a block.
fn is_read(alloc: Global, block: &[u8]) -> bool {
    if block.len() < 40 {
        return false;
    }
    let mut front = [0; 40];
    front.copy_from_slice(&block[..40]);
    let Ok(header) = read_header(&front) else {
        return false;
    };
    let body = &block[40..];
    if body.len() != header.times_len as usize + header.values_len as usize {
        return false;
    }
    decode_block(alloc, &header, body).is_ok()
}

/// Copies the samples of a block so many times, and gives the bytes of all copies.
fn copy(alloc: Global, block: &[Stamped], rounds: u32) -> Result<u64, AllocError> {
    let mut place = Vec::with_capacity(alloc, block.len())?;
    let mut bytes = 0u64;
    for _round in 0..rounds {
        place.clear();
        place.extend_from_slice(block)?;
        bytes = bytes.saturating_add(
            (place.len() as u64).saturating_mul(size_of::<Stamped>() as u64),
        );
    }
    Ok(bytes)
}
