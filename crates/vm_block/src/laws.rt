//! Laws of blocks, as contracts of functions that do nothing.
ghost use Rattle.std.specs.Prelude.{◌≡◌, ℕ, List, take, drop};
ghost use Rattle.vm_base.specs.declared.stamped.Stamped.{Stamped};
ghost use Rattle.vm_block.specs.Block.{BreaksAt, IsBlock};
ghost use Rattle.vm_block.specs.Cut.{IsCut};
ghost use Rattle.vm_block.specs.Header.{IsHeader, header_bytes};
ghost use Rattle.vm_block.specs.Written.{IsWritten};
ghost use Rattle.vm_block.specs.declared.header.BlockHeader.{BlockHeader};

use crate::BlockHeader;
use vm_base::Stamped;

/// Samples are cut into blocks in one way.
pub fn samples_have_one_cut(samples: &[Stamped])
    ensures { (one other : List (List Stamped)) → IsCut samples.now one → IsCut samples.now other
        → one ≡ other }
{}

/// A header and a body are the block of one list of samples.
pub fn a_block_says_one_list(header: &BlockHeader, body: &[u8])
    ensures { (samples others : List Stamped) → IsBlock header.now body.now samples
        → IsBlock header.now body.now others → samples ≡ others }
{}

/// A header and a body that are no block break at one place.
pub fn a_block_breaks_at_one_place()
    ensures { (header : BlockHeader) (body : List ℕ) (at other : ℕ) → BreaksAt header body at
        → BreaksAt header body other
        → at ≡ other }
{}

/// What is written of samples is read as them: where its first 40 bytes are a header, the rest is
/// the body of their block.
pub fn what_is_written_is_read(header: &BlockHeader)
    ensures { (samples : List Stamped) (bytes : List ℕ) → IsWritten bytes samples
        → IsHeader header.now → header_bytes header.now ≡ take 40 bytes
        → IsBlock header.now (drop 40 bytes) samples }
{}

/// A list of samples is written in one way.
pub fn samples_are_written_in_one_way()
    ensures { (samples : List Stamped) (bytes others : List ℕ) → IsWritten bytes samples
        → IsWritten others samples
        → bytes ≡ others }
{}
