//! Why a step of the reader stops.

ghost use Rattle.std.specs.Prelude.{◌≡◌};
ghost use Rattle.vm_promtext.specs.declared.stop.Stop.TheVariants.{Memory, Broken};

use std::alloc::AllocError;

/// A line goes wrong where this many of its bytes are left.
#[derive(Clone, Copy)]
pub struct Wrong {
    /// How many bytes of the line are left.
    pub left: usize,
}

/// Why a step that takes memory stops.
#[derive(Clone, Copy)]
pub enum Stop {
    /// Memory ran out.
    Memory,
    /// The line goes wrong.
    Broken(Wrong),
}

impl From<AllocError> for Stop {
    ghost from_gives = { λ _ e. e ≡ Memory };

    fn from(_e: AllocError) -> Stop {
        Stop::Memory
    }
}

impl From<Wrong> for Stop {
    ghost from_gives = { λ wrong e. e ≡ Broken wrong };

    fn from(wrong: Wrong) -> Stop {
        Stop::Broken(wrong)
    }
}
