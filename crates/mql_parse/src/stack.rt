//! What is open around the next token.

ghost use Rattle.std.specs.Prelude.{◌≡◌, reverse};
ghost use Rattle.mql_parse.specs.Machine.{opened};
ghost use Rattle.mql_parse.specs.inner.Views.{the_frames};

use crate::state::Open;
use vm_base::List;

/// How many levels may be open at a place.
pub const MAX_LEVELS: u64 = 100;

/// What is open, each in what stands before it. Contracts see the list of them, the innermost
/// first, as `stack_of`.
#[derive(Drop)]
pub(crate) struct Stack {
    // the innermost last
    pub(crate) opens: List<Open>,
    // how many of them are levels
    pub(crate) levels: u64,
    ghost counted: { levels ≡ opened (the_frames (reverse opens)) },
}
