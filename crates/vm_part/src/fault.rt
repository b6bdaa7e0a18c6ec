//! Why there is no part.
ghost use Rattle.std.specs.Prelude.{◌≡◌};
ghost use Rattle.vm_part.specs.declared.fault.PartFault.TheVariants.{DiskFault, Memory as NoRoom};
ghost use Rattle.vm_part.specs.declared.fault.ReadFault.TheVariants.{Broken as BrokenAt, Memory as Unread};

use std::alloc::AllocError;
use thiserror::Error;
use vm_base::Broken;
use vm_outside::Failed;

/// Why bytes give no part.
#[derive(Clone, Copy, Debug, PartialEq, Eq)]
pub enum ReadFault {
    /// The bytes are no part: this is the place of the first wrong field.
    Broken { at: u64 },
    /// Memory ran out.
    Memory,
}

impl From<AllocError> for ReadFault {
    ghost from_gives = { λ _ e. e ≡ Unread };

    fn from(_e: AllocError) -> ReadFault {
        ReadFault::Memory
    }
}

impl From<Broken> for ReadFault {
    ghost from_gives = { λ broken e. e ≡ BrokenAt broken.at };

    fn from(e: Broken) -> ReadFault {
        ReadFault::Broken { at: e.at }
    }
}

/// A part has more than 2^61 bytes, which no file may have.
#[derive(Clone, Copy, Debug, PartialEq, Eq, Error)]
#[error("a part of more than 2^61 bytes")]
pub struct PartTooLong;

/// Why a file gives no part.
#[derive(Clone, Copy, Debug, PartialEq, Eq, Error)]
pub enum PartFault {
    /// The disk failed, and counted that.
    #[error("disk fault")]
    DiskFault,
    /// The bytes of the file are no part: this is the place of the first wrong field.
    #[error("file {file} is damaged at byte {at}")]
    Damaged { file: u64, at: u64 },
    /// Memory ran out.
    #[error("out of memory")]
    Memory,
}

impl From<AllocError> for PartFault {
    ghost from_gives = { λ _ e. e ≡ NoRoom };

    fn from(_e: AllocError) -> PartFault {
        PartFault::Memory
    }
}

impl From<Failed> for PartFault {
    ghost from_gives = { λ _ e. e ≡ DiskFault };

    fn from(_e: Failed) -> PartFault {
        PartFault::DiskFault
    }
}
