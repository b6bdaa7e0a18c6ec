//! Why there are no samples.
ghost use Rattle.std.specs.Prelude.{◌≡◌};
ghost use Rattle.vm_block.specs.declared.fault.BlockFault.TheVariants.{Memory as Unread};

use std::alloc::AllocError;

/// Why a block gives no samples.
#[derive(Clone, Copy, Debug, PartialEq, Eq)]
pub enum BlockFault {
    /// The bytes are no block. This is the place of the first fault, in bytes from the front of the
    /// header.
    Broken { at: u64 },
    /// Memory ran out.
    Memory,
}

impl From<AllocError> for BlockFault {
    ghost from_gives = { λ _ e. e ≡ Unread };

    fn from(_e: AllocError) -> BlockFault {
        BlockFault::Memory
    }
}
