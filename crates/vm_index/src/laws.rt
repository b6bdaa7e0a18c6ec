//! Laws of label tables, as contracts of functions that do nothing.

ghost use Rattle.std.specs.Prelude.{◌≡◌, ℕ, List};
ghost use Rattle.vm_labels.specs.declared.pair.Pair.{Pair};
ghost use Rattle.vm_index.specs.Reading.{IsTable, TableBreaks};

/// A table of so many label sets is that of one list of them.
pub fn a_table_says_one_list()
    ensures { (count : ℕ) (table : List ℕ) (sets others : List (List Pair))
        → IsTable count table sets
        → IsTable count table others → sets ≡ others }
{}

/// A table breaks at one place alone.
pub fn a_table_breaks_at_one_place()
    ensures { (count : ℕ) (table : List ℕ) (at other : ℕ) → TableBreaks count table at
        → TableBreaks count table other → at ≡ other }
{}
