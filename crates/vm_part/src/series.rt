//! The samples of a series, read from its blocks.

ghost use Rattle.std.specs.Prelude.{◌≡◌, ◌++◌, ℕ, List, IfOk};
ghost use Rattle.vm_base.specs.declared.stamped.Stamped.{Stamped};
ghost use Rattle.vm_block.specs.Block.{IsBlock};
ghost use Rattle.vm_block.specs.Header.{IsHeader, header_bytes};
ghost use Rattle.vm_part.specs.Part.{Block, samples_in};
ghost use Rattle.vm_part.specs.inner.Standing.{AreHeader, BeginsWith, HasBlock, HasBlocks, StandAt};

use crate::Entry;
use std::alloc::{AllocError, Global};
use vm_base::{List, Stamped};
use vm_block::{BlockFault, BlockHeader, HEADER_LEN, decode_block, read_header};

/// The samples of the blocks that stand where an entry says.
pub(crate) fn read_blocks(
    alloc: Global,
    bytes: &[u8],
    entry: &Entry,
) -> Result<List<Stamped>, AllocError>
    requires { HasBlocks bytes.now entry.now }
    ensures { IfOk result (λ samples. (blocks : List Block) → StandAt bytes.now entry.now blocks
        → samples ≡ samples_in blocks) }
{
    let (_, behind) = bytes.split_at(entry.start as usize);
    let mut rest = behind;
    let mut samples = Vec::new(alloc);
    'reading: for _block in 0..entry.blocks {
        let more = put_block(alloc, &mut samples, rest)?;
        rest = more;
    }
    Ok(List::from_vec(samples))
}

/// Appends the samples of the block at the front of some bytes, and gives the bytes behind it.
fn put_block<'a>(
    alloc: Global,
    samples: &mut Vec<Stamped>,
    bytes: &'a [u8],
) -> Result<&'a [u8], AllocError>
    requires { HasBlock bytes.now }
    ensures { IfOk result (λ rest. (b : Block) (more : List ℕ) → BeginsWith bytes.now b more
        → (samples.new.items ≡ samples.old.items ++ b.samples) × (rest.now ≡ more)) }
{
    let (front, behind) = bytes.split_at(HEADER_LEN);
    let header = header_at(front);
    let len = header.times_len as usize + header.values_len as usize;
    let (body, rest) = behind.split_at(len);
    let block = read_standing(alloc, &header, body)?;
    samples.extend_from_slice(block.as_slice())?;
    Ok(rest)
}

/// The header that these bytes are.
fn header_at(front: &[u8]) -> BlockHeader
    requires { AreHeader front.now }
    ensures header { IsHeader result }
    ensures bytes { header_bytes result ≡ front.now }
{
    let mut bytes = [0; 40];
    bytes.copy_from_slice(front);
    match read_header(&bytes) {
        Ok(header) => header,
        Err(_) => unreachable!(),
    }
}

/// The samples of the block that this header and this body are.
fn read_standing(
    alloc: Global,
    header: &BlockHeader,
    body: &[u8],
) -> Result<List<Stamped>, AllocError>
    requires { (samples : List Stamped) × IsBlock header.now body.now samples }
    ensures { IfOk result (IsBlock header.now body.now) }
{
    match decode_block(alloc, header, body) {
        Ok(samples) => Ok(samples),
        Err(BlockFault::Memory) => Err(AllocError),
        Err(BlockFault::Broken { .. }) => unreachable!(),
    }
}
