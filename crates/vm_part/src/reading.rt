//! A part read from bytes.

ghost use Rattle.std.specs.Prelude.{◌≡◌, ◌≤◌, List, length, IfOk, IfErr, OnOk, ⊤};
ghost use Rattle.vm_index.specs.Bytes.{postings_bytes};
ghost use Rattle.vm_index.specs.Index.{postings_of};
ghost use Rattle.vm_index.specs.Reading.{IsTable};
ghost use Rattle.vm_part.specs.Broken.{IsReadFault, postings_in, table_in};
ghost use Rattle.vm_part.specs.Part.{IsPart, Stored};
ghost use Rattle.vm_part.specs.inner.Reading.{AreSections, IsIndexFault};
ghost use Rattle.vm_part.specs.Said.{Says};
ghost use Rattle.vm_part.specs.declared.fault.ReadFault.TheVariants.{Memory};

use crate::blocks::check_blocks;
use crate::entries::read_entries;
use crate::footer::{Footer, read_footer};
use crate::{Entry, MemPart, ReadFault};
use std::alloc::Global;
use vm_base::List;
use vm_index::{Index, IndexFault};

/// How many bytes the footer takes.
const FOOTER_LEN: u64 = 48;

/// How many bytes a part has at least: its front and its footer.
const MIN_LEN: u64 = 56;

impl MemPart {
    /// The part that these bytes are, which are to be so many: where a file is shorter, its bytes
    /// are cut off.
    ///
    /// `Broken` names the place of the first field that is cut off or breaks its rule, in the order
    /// in which a part is read: its front, the footer, the entries, the label table, the postings
    /// and the blocks.
    pub fn read(alloc: Global, len: u64, bytes: Vec<u8>) -> Result<MemPart, ReadFault>
        requires { length bytes.items ≤ len }
        ensures found { IfOk result
            (λ part. (part.bytes ≡ bytes.items) × (length bytes.items ≡ len)) }
        ensures only { (all : List Stored) → IsPart bytes.items all → length bytes.items ≡ len
            → IfErr result (λ fault. fault ≡ Memory) }
        ensures broken { IfErr result (λ fault. IsReadFault len bytes.items fault) }
    {
        let found = find(alloc, len, bytes.as_slice())?;
        Ok(MemPart::keep(bytes, found.index, found.entries, found.rows))
    }
}

/// What was found in the bytes of a part.
#[derive(Drop)]
struct Found {
    index: Index,
    entries: List<Entry>,
    rows: u64,
}

/// What is found in the bytes of a file that is to have so many.
fn find(alloc: Global, len: u64, bytes: &[u8]) -> Result<Found, ReadFault>
    requires { length bytes.now ≤ len }
    ensures says { IfOk result
        (λ found.
        Says (record {
          bytes = bytes.now;
          sets = found.index;
          entries = found.entries;
          rows = found.rows;
        }) (λ all. ⊤)) }
    ensures long { OnOk result (length bytes.now ≡ len) }
    ensures broken { IfErr result (λ fault. IsReadFault len bytes.now fault) }
{
    if len < MIN_LEN {
        return Err(ReadFault::Broken { at: 0 });
    }
    let footer = read_footer(len, bytes)?;
    let entries = read_entries(alloc, bytes, &footer)?;
    let index = read_index(alloc, len - FOOTER_LEN, bytes, &footer)?;
    check_blocks(alloc, bytes, footer.entries_at, entries.as_slice())?;
    Ok(Found {
        index,
        entries,
        rows: footer.rows,
    })
}

/// The label index of a file whose footer stands at a place.
fn read_index(alloc: Global, at: u64, bytes: &[u8], footer: &Footer) -> Result<Index, ReadFault>
    requires { AreSections at bytes.now footer.now }
    ensures table { IfOk result
        (λ sets. IsTable footer.now.series (table_in footer.now bytes.now) sets) }
    ensures postings { IfOk result
        (λ sets. postings_in at footer.now bytes.now ≡ postings_bytes (postings_of sets)) }
    ensures broken { IfErr result (λ fault. IsIndexFault at footer.now bytes.now fault) }
{
    let table = &bytes[footer.table_at as usize..footer.postings_at as usize];
    let postings = &bytes[footer.postings_at as usize..at as usize];
    match Index::read(alloc, table, postings, footer.series) {
        Ok(index) => Ok(index),
        Err(IndexFault::BrokenTable { at }) => {
            let in_table = footer.table_at + at;
            Err(ReadFault::Broken { at: in_table })
        }
        Err(IndexFault::BrokenPostings { at }) => {
            let in_postings = footer.postings_at + at;
            Err(ReadFault::Broken { at: in_postings })
        }
        Err(IndexFault::Memory) => Err(ReadFault::Memory),
    }
}
