//! Laws of the grammar, as contracts of functions that do nothing.
ghost use Rattle.std.specs.Prelude.{◌≡◌, ℕ, ℤ, List, [], ◌++◌};
ghost use Rattle.vm_codec.specs.Coding.{IsColumn, IsBroken};

use crate::Coding;

/// No spelling of a column begins the spelling of another with the same coding, first value and
/// count. So a column's bytes need no length beside these three.
pub fn no_column_begins_another(coding: Coding, first: i64, count: usize)
    ensures values { (values others : List ℤ) (bytes more : List ℕ)
        → IsColumn coding first count bytes values
        → IsColumn coding first count (bytes ++ more) others → values ≡ others }
    ensures bytes { (values others : List ℤ) (bytes more : List ℕ)
        → IsColumn coding first count bytes values
        → IsColumn coding first count (bytes ++ more) others → more ≡ [] }
{}

/// Bytes break at one place.
pub fn bytes_break_at_one_place(coding: Coding, first: i64, count: usize)
    ensures { (bytes : List ℕ) (at other : ℕ) → IsBroken coding first count bytes at
        → IsBroken coding first count bytes other → at ≡ other }
{}
