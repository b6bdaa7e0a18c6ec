use std::alloc::AllocError;

/// Why a reader didn't come to the next line.
#[derive(Clone, Copy, Debug, PartialEq, Eq)]
pub enum LineFault {
    /// The input failed, and counted it.
    Input,
    /// `MAX_INPUT` bytes were taken, and no end was met.
    InputTooLong,
    /// Out of memory.
    Memory,
}

impl From<AllocError> for LineFault {
    ghost use Rattle.std.specs.Prelude.{◌≡◌};
    ghost use Rattle.vm_lines.specs.declared.fault.LineFault.TheVariants.{Memory};

    ghost from_gives = { λ _ fault. fault ≡ Memory };

    fn from(_: AllocError) -> LineFault {
        LineFault::Memory
    }
}
