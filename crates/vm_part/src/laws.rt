//! Laws of parts, as contracts of functions that do nothing.

ghost use Rattle.std.specs.Prelude.{◌≡◌, ℕ, List, length};
ghost use Rattle.vm_part.specs.Broken.{Breaks};
ghost use Rattle.vm_part.specs.Part.{IsPart, Stored};

/// Bytes are the part of one list of series.
pub fn a_part_says_one_list()
    ensures { (bytes : List ℕ) (some others : List Stored) → IsPart bytes some → IsPart bytes others
        → some ≡ others }
{}

/// The bytes of a part break nowhere.
pub fn a_part_breaks_nowhere()
    ensures { (bytes : List ℕ) (all : List Stored) (at : ℕ) → IsPart bytes all
        → Breaks (length bytes) bytes at → ⊥ }
{}

/// Bytes of a file that is to have so many, which are no part, break at one place.
pub fn bytes_break_at_one_place()
    ensures { (len : ℕ) (bytes : List ℕ) (at other : ℕ) → Breaks len bytes at
        → Breaks len bytes other → at ≡ other }
{}
