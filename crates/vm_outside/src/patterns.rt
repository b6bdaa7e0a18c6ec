ghost use Rattle.std.specs.Prelude.{◌≡◌, ℕ, ◌≤◌, Bool, List as ListOf, Option as OptionOf, IfOk, IsOk, IsErrOf};
ghost use Rattle.vm_outside.specs.Outside.{Rose};

use std::alloc::AllocError;
use vm_base::{List, Text};

/// Builds patterns from texts, in a syntax that its type tells.
pub trait Patterns {
    /// A pattern that was built.
    type Built: Pattern;

    /// Which texts are patterns.
    ghost IsPattern: { ListOf ℕ → Type 0 };

    /// How many texts were refused, up to 2^64 - 1.
    ghost refusals: { Self → ℕ };

    /// The pattern of this text.
    fn build(&mut self, text: &str) -> Result<Self::Built, PatternFault>
        // It is the pattern of this text, which has to be one.
        ensures text { IfOk result (λ pattern. ⟦<Self::Built as Pattern>⟧.text pattern ≡ text.now) }
        ensures pattern { IsOk result → IsPattern text.now }
        ensures syntax { IsErrOf result PatternFault.Syntax → IsPattern text.now → ⊥ }

        // A refusal is counted.
        ensures counted { refusals self.old ≤ refusals self.new }
        ensures cause { IsErrOf result PatternFault.Refused
            → Rose (refusals self.old) (refusals self.new) };
}

/// A pattern, which is held against whole values. Its type tells what the pattern of a text
/// matches.
pub trait Pattern: Drop {
    /// The text that it was built from.
    ghost text: { Self → ListOf ℕ };

    /// Whether the pattern of a text matches the whole of a value.
    ghost matches: { ListOf ℕ → ListOf ℕ → Bool };

    /// The texts of groups 0 to 9 of that match, empty for a group that took no part, or nothing
    /// where the pattern of a text doesn't match.
    ghost groups_of: { ListOf ℕ → ListOf ℕ → OptionOf (ListOf (ListOf ℕ)) };

    /// Whether it matches the whole value. The only error is that memory ran out.
    fn whole(&mut self, value: &str) -> Result<bool, AllocError>
        ensures value { IfOk result (λ found. found ≡ matches (text self.old) value.now) }
        ensures kept { text self.new ≡ text self.old };

    /// The groups of its match with the whole value. The only error is that memory ran out.
    fn groups(&mut self, value: &str) -> Result<Option<List<Text>>, AllocError>
        ensures value { IfOk result (λ groups. groups ≡ groups_of (text self.old) value.now) }
        ensures kept { text self.new ≡ text self.old };
}

/// Why a text gave no pattern.
#[derive(Clone, Copy, Debug, PartialEq, Eq)]
pub enum PatternFault {
    /// The text is no pattern.
    Syntax,
    /// The builder refused it for another cause, and counted that.
    Refused,
    /// Memory ran out.
    Memory,
}

impl From<AllocError> for PatternFault {
    ghost use Rattle.std.specs.Prelude.{◌≡◌};
    ghost use Rattle.vm_outside.specs.declared.patterns.PatternFault.TheVariants.{Memory};

    ghost from_gives = { λ _ fault. fault ≡ Memory };

    fn from(_: AllocError) -> PatternFault {
        PatternFault::Memory
    }
}
