//! Samples cut into blocks.
ghost use Rattle.std.specs.Prelude.{◌≡◌, ◌≤◌, ◌<◌, ◌+◌, ◌∷◌, [], ◌++◌, true, false, IfOk, OnOk, length, take};
ghost use Rattle.vm_block.specs.Cut.{IsCut, fit_one_block};

use crate::shared::Shared;
use std::alloc::{AllocError, Global};
use vm_base::limits::MAX_BLOCK_SAMPLES;
use vm_base::{List, Stamped};

/// The blocks of samples, in their order. A block takes the next sample unless it has 8,192, or the
/// mantissa of one of its values would have more than 18 digits at the exponent that all share.
pub fn cut(alloc: Global, samples: &[Stamped]) -> Result<List<List<Stamped>>, AllocError>
    ensures { IfOk result (IsCut samples.now) }
{
    let mut blocks = List::new(alloc);
    let mut rest = samples;
    'cuts: while !rest.is_empty() {
        let (block, more) = rest.split_at(block_len(rest));
        push_copy(alloc, &mut blocks, block)?;
        rest = more;
    }
    Ok(blocks)
}

/// Puts a copy of a block to the end of others.
fn push_copy(
    alloc: Global,
    blocks: &mut List<List<Stamped>>,
    block: &[Stamped],
) -> Result<(), AllocError>
    ensures { OnOk result (blocks.new ≡ blocks.old ++ block.now ∷ []) }
{
    let mut samples = Vec::with_capacity(alloc, block.len())?;
    samples.extend_from_slice(block)?;
    blocks.push(List::from_vec(samples))
}

/// How many samples the first block takes.
pub(crate) fn block_len(samples: &[Stamped]) -> usize
    requires { 1 ≤ length samples.now }
    ensures some { 1 ≤ result }
    ensures within { result ≤ length samples.now }
    ensures fits { fit_one_block (take result samples.now) ≡ true }
    ensures longest { result < length samples.now
        → fit_one_block (take (result + 1) samples.now) ≡ false }
{
    let most = samples.len().min(MAX_BLOCK_SAMPLES as usize);
    let mut shared = Shared::of(samples[0].value);
    for place in 1..most {
        let Some(more) = shared.join(Shared::of(samples[place].value)) else {
            return place;
        };
        shared = more;
    }
    most
}
