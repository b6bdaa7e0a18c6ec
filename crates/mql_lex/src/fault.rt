//! Why a text has no tokens.

ghost use Rattle.std.specs.Prelude.{◌≡◌};
ghost use Rattle.mql_lex.specs.declared.fault.LexFault.TheVariants.{Memory};

use std::alloc::AllocError;

/// Why a text isn't cut into tokens.
#[derive(Clone, Copy, Debug, PartialEq, Eq)]
pub enum LexFault {
    /// The text has n bytes, more than `MAX_QUERY_TEXT`.
    TooLong { n: u64 },
    /// No token begins at this place, counted in bytes from 0, and neither does a blank or a
    /// comment. A string that isn't closed or has a wrong escape goes wrong at its opening quote,
    /// and a number or a duration right before a letter, a digit or `_` at its first byte.
    BadToken { at: u64 },
    /// Memory ran out.
    Memory,
}

impl From<AllocError> for LexFault {
    ghost from_gives = { λ _ e. e ≡ Memory };

    fn from(_e: AllocError) -> LexFault {
        LexFault::Memory
    }
}
