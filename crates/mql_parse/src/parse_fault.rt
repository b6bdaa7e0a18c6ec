//! Why a text is no query.

ghost use Rattle.std.specs.Prelude.{◌≡◌};
ghost use Rattle.mql_parse.specs.declared.parse_fault.ParseFault.TheVariants.{Memory};

use std::alloc::AllocError;

/// Why tokens are no query. Places count bytes of the text from 0.
#[derive(Clone, Copy, Debug, PartialEq, Eq)]
pub enum ParseFault {
    /// The first token with which the tokens so far begin no expression, or the text's length where
    /// they end too early.
    Unexpected { at: u64 },
    /// The token that opens level 101: each `(` of an expression, a call or a `with`, and each sign
    /// while its operand lasts, opens one.
    TooDeep { at: u64 },
    /// A number with more than 38 digits or an exponent outside -1000 to 1000 in normal form, or a
    /// duration of 2^48 ms or more, or of 2^48 steps or more.
    NumberTooWide { at: u64 },
    /// Memory ran out.
    Memory,
}

impl From<AllocError> for ParseFault {
    ghost from_gives = { λ _ e. e ≡ Memory };

    fn from(_e: AllocError) -> ParseFault {
        ParseFault::Memory
    }
}
