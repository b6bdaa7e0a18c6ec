//! Why no matcher was built.

use std::alloc::AllocError;
use vm_base::Text;

/// Why the patterns of a selector couldn't be built.
#[derive(Debug, Drop)]
pub enum MatchFault {
    /// The text of a filter with `=~` or `!~` is no pattern. It is the first such text, list by
    /// list.
    BadPattern { text: Text },
    /// The builder refused this text, and counted that. All before it are patterns.
    PatternRefused { text: Text },
    /// Memory ran out.
    Memory,
}

impl From<AllocError> for MatchFault {
    ghost use Rattle.std.specs.Prelude.{◌≡◌};
    ghost use Rattle.vm_match.specs.declared.fault.MatchFault.TheVariants.{Memory};

    ghost from_gives = { λ _ fault. fault ≡ Memory };

    fn from(_: AllocError) -> MatchFault {
        MatchFault::Memory
    }
}
