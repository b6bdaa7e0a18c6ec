//! Why a step of the reader stops.

ghost use Rattle.std.specs.Prelude.{◌≡◌};
ghost use Rattle.vm_jsonline.specs.declared.stop.Stop.TheVariants.{Memory};

use std::alloc::AllocError;

/// Why a step that takes memory stops.
#[derive(Clone, Copy)]
pub(crate) enum Stop {
    Memory,
    /// The line is JSON, but no series.
    Faulty,
}

impl From<AllocError> for Stop {
    ghost from_gives = { λ _ e. e ≡ Memory };

    fn from(_e: AllocError) -> Stop {
        Stop::Memory
    }
}
