//! Why bytes are no index.

ghost use Rattle.std.specs.Prelude.{◌≡◌};
ghost use Rattle.vm_index.specs.declared.fault.IndexFault.TheVariants.{Memory};

use std::alloc::AllocError;

/// Why bytes are no label table with its postings.
#[derive(Clone, Copy, Debug, PartialEq, Eq)]
pub enum IndexFault {
    /// The label table breaks at this place, in bytes from its front.
    BrokenTable { at: u64 },
    /// The postings aren't those of the label table from this place on, in bytes from their front.
    BrokenPostings { at: u64 },
    /// Memory ran out.
    Memory,
}

impl From<AllocError> for IndexFault {
    ghost from_gives = { λ _ e. e ≡ Memory };

    fn from(_e: AllocError) -> IndexFault {
        IndexFault::Memory
    }
}
