//! The label index.

ghost use Rattle.std.specs.Prelude.{◌≡◌, IfOk, IfErr};
ghost use Rattle.vm_index.specs.Bytes.{postings_bytes, table_bytes};
ghost use Rattle.vm_index.specs.Index.{AreSets, KeepLimits, SetsRise, ordinals_of, postings_of};
ghost use Rattle.vm_index.specs.Numbers.{Rise};
ghost use Rattle.vm_index.specs.Reading.{IsRefused, IsTable};
ghost use Rattle.vm_index.specs.Texts.{AreTexts, is_name_in, is_value_in};
ghost use Rattle.vm_index.specs.declared.fault.IndexFault.TheVariants.{Memory};

use crate::bytes::{bytes_of, table_of};
use crate::entries::postings_of;
use crate::lookup::found;
use crate::names::{names_of, values_of};
use crate::read::{first_off, sets_of};
use crate::{IndexFault, Posting};
use std::alloc::{AllocError, Global};
use std::marker::Model;
use vm_base::{List, Text};
use vm_labels::Labels;

/// The label sets of a part's series, in order, with the sets that have each pair. Contracts see
/// the list of the sets. An ordinal is a place in it, counted from 0.
#[derive(Debug, Drop)]
pub struct Index {
    sets: List<Labels>,
    /// The bytes of the label table.
    table: Vec<u8>,
    postings: List<Posting>,
    /// The bytes of the postings.
    bytes: Vec<u8>,
}

impl Model for Index {
    ghost use Rattle.std.specs.Prelude.{List};
    ghost use Rattle.vm_labels.specs.declared.pair.Pair.{Pair};
    ghost use Rattle.vm_index.specs.Whole.{IsWhole};

    ghost Value = { List (List Pair) };

    ghost view = { λ index. index.sets };

    ghost invariant = { λ index. IsWhole index.sets index.table.items index.postings index.bytes.items };
}

impl Index {
    ghost use Rattle.std.specs.Prelude.{List};
    ghost use Rattle.vm_labels.specs.declared.pair.Pair.{Pair};

    /// The index of label sets that rise and keep the limits of an import.
    pub fn build(alloc: Global, sets: List<Labels>) -> Result<Index, AllocError>
        requires rising { SetsRise sets }
        requires limits { KeepLimits sets }
        ensures { IfOk result (λ index. index ≡ sets) }
    {
        let table = table_of(alloc, sets.as_slice())?;
        let postings = postings_of(alloc, sets.as_slice())?;
        let bytes = bytes_of(alloc, postings.as_slice())?;
        Ok(Index {
            sets,
            table,
            postings,
            bytes,
        })
    }

    /// The index whose label table and postings these bytes are, of so many label sets.
    ///
    /// A field is a number, a length, a name or a value. `BrokenTable` names the first byte of the
    /// first field of the label table that is cut off or breaks its rule: a set's length doesn't go
    /// past the end, and a set's own fields are those that `Labels::read` takes. A set that is out
    /// of order or breaks a limit of an import is broken at its own first byte, and bytes that are
    /// left over at the first of them. `BrokenPostings` names the first byte of the first field of
    /// the postings that isn't the one that is due for these sets, or of bytes left over.
    pub fn read(
        alloc: Global,
        table: &[u8],
        postings: &[u8],
        count: u64,
    ) -> Result<Index, IndexFault>
        ensures found { IfOk result
            (λ sets. IsTable count table.now sets
            × (postings.now ≡ postings_bytes (postings_of sets))) }
        ensures only { (sets : List (List Pair)) → IsTable count table.now sets
            → postings.now ≡ postings_bytes (postings_of sets)
            → IfErr result (λ fault. fault ≡ Memory) }
        ensures broken { IfErr result (λ fault. IsRefused count table.now postings.now fault) }
    {
        let sets = sets_of(alloc, table, count)?;
        let due = postings_of(alloc, sets.as_slice())?;
        if let Some(at) = first_off(due.as_slice(), postings) {
            return Err(IndexFault::BrokenPostings { at });
        }
        Ok(Index {
            sets,
            table: Vec::from_slice(alloc, table)?,
            postings: due,
            bytes: Vec::from_slice(alloc, postings)?,
        })
    }

    /// The label sets. A caller learns from it that they rise and have bytes.
    pub fn sets(&self) -> &[Labels]
        ensures sets { result.now ≡ self.now }
        ensures rising { AreSets self.now }
    {
        self.sets.as_slice()
    }

    /// The bytes of the label table.
    pub fn table(&self) -> &[u8]
        ensures { result.now ≡ table_bytes self.now }
    {
        self.table.as_slice()
    }

    /// The bytes of the postings.
    pub fn postings(&self) -> &[u8]
        ensures { result.now ≡ postings_bytes (postings_of self.now) }
    {
        self.bytes.as_slice()
    }

    /// The ordinals of the sets that have this name with this value. They rise. An empty value is
    /// none that a set has.
    pub fn lookup(&self, name: &str, value: &str) -> &[u64]
        ensures ordinals { result.now
            ≡ ordinals_of self.now (record { name = name.now; value = value.now }) }
        ensures rising { Rise result.now }
    {
        found(self.postings.as_slice(), name, value)
    }

    /// The names of all labels of the sets, each once and in order by their bytes.
    pub fn names(&self, alloc: Global) -> Result<List<Text>, AllocError>
        ensures { IfOk result (λ names. AreTexts (is_name_in self.now) names) }
    {
        let names = names_of(alloc, self.postings.as_slice())?;
        Ok(List::from_vec(names))
    }

    /// The values that the sets have of a name, each once and in order by their bytes. None of them
    /// is empty.
    pub fn values(&self, alloc: Global, name: &str) -> Result<List<Text>, AllocError>
        ensures { IfOk result (λ values. AreTexts (is_value_in self.now name.now) values) }
    {
        let values = values_of(alloc, self.postings.as_slice(), name)?;
        Ok(List::from_vec(values))
    }
}
