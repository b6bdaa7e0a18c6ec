//! Why a text is no query.

ghost use Rattle.std.specs.Prelude.{◌≡◌};
ghost use Rattle.mql_parse.specs.declared.fault.StepError.TheVariants.{Memory};

use std::alloc::AllocError;

/// What is wrong with a token where an expression can't go on with it. No call gives one: it is a
/// word of the laws of `mql_laws`.
#[derive(Clone, Copy)]
pub enum Wrong {
    /// No expression goes on with it.
    Unexpected,
    /// It opens a level more than there may be.
    TooDeep,
    /// It is a number or a duration out of range.
    NumberTooWide,
}

/// Why a step isn't made.
#[derive(Clone, Copy)]
pub(crate) enum StepError {
    Memory,
    Refused(Wrong),
}

impl From<AllocError> for StepError {
    ghost from_gives = { λ _ e. e ≡ Memory };

    fn from(_e: AllocError) -> StepError {
        StepError::Memory
    }
}
