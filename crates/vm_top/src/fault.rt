//! Why a command ends without an answer.

use crate::status::Status;
use std::alloc::AllocError;
use thiserror::Error;
use vm_lines::LineFault;

/// Why a command did not do what was asked of it.
#[derive(Clone, Copy, Debug, PartialEq, Eq, Error)]
pub enum Fault {
    /// The words are no command.
    #[error("usage")]
    Usage,
    /// The input has 2^62 bytes and no end among them.
    #[error("input too long")]
    InputTooLong,
    /// A line of a script is no command, or its body has no end.
    #[error("bad script line {line}")]
    BadLine {
        /// The number of the line, counted from 1.
        line: u64,
    },
    /// The input failed.
    #[error("input fault")]
    Input,
    /// The output failed.
    #[error("output fault")]
    Output,
    /// There was no memory.
    #[error("out of memory")]
    Memory,
}

impl From<AllocError> for Fault {
    ghost use Rattle.std.specs.Prelude.{◌≡◌};
    ghost use Rattle.vm_top.specs.declared.fault.Fault.TheVariants.{Memory};

    ghost from_gives = { λ _ fault. fault ≡ Memory };

    fn from(_: AllocError) -> Fault {
        Fault::Memory
    }
}

impl From<LineFault> for Fault {
    ghost use Rattle.std.specs.Prelude.{◌≡◌};
    ghost use Rattle.vm_top.specs.inner.Asked.{fault_of_lines};

    ghost from_gives = { λ why fault. fault ≡ fault_of_lines why };

    fn from(why: LineFault) -> Fault {
        match why {
            LineFault::Input => Fault::Input,
            LineFault::InputTooLong => Fault::InputTooLong,
            LineFault::Memory => Fault::Memory,
        }
    }
}

impl Fault {
    ghost use Rattle.std.specs.Prelude.{◌≡◌};
    ghost use Rattle.vm_top.specs.Statuses.{status_of};

    /// The status of the program that ends by this fault.
    pub fn status(self) -> Status
        ensures { result ≡ status_of self }
    {
        match self {
            Fault::Usage => Status::Usage,
            Fault::InputTooLong | Fault::BadLine { .. } => Status::Refused,
            Fault::Input => Status::InputFault,
            Fault::Output => Status::OutputFault,
            Fault::Memory => Status::Memory,
        }
    }
}
