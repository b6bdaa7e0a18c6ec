//! The label sets of a table, and the postings of a file beside those that are due.

ghost use Rattle.std.specs.Prelude.{◌≡◌, ◌+◌, ◌<◌, ◌^◌, ◌∷◌, length, map, false, IfOk, IfErr, OnOk};
ghost use Rattle.std.specs.List.{AllByRecursion, list_all};
ghost use Rattle.std.specs.Int.{w64, to_be_bytes};
ghost use Rattle.vm_labels.specs.Labels.{is_too_long};
ghost use Rattle.vm_index.specs.Bytes.{posting_fields, postings_fields, text_fields};
ghost use Rattle.vm_index.specs.Index.{AreSets, SetsRise, is_set_below};
ghost use Rattle.vm_index.specs.Reading.{Gives, IsTable, Joins, SetFault, TableFault, behind, behind_all, first_off, frame_len};

use crate::{IndexFault, Posting};
use std::alloc::Global;
use vm_base::List;
use vm_labels::{Labels, ReadFault};

/// The label sets of a table of so many.
pub(crate) fn sets_of(alloc: Global, table: &[u8], count: u64) -> Result<List<Labels>, IndexFault>
    ensures found { IfOk result (λ sets. IsTable count table.now sets) }
    ensures broken { IfErr result (λ fault. TableFault count table.now fault) }
{
    let mut sets = List::new(alloc);
    let mut at = 0;
    for _ in 0..count {
        let rest = &table[at..];
        match frame_len(rest) {
            Some(len) => {
                read_set(alloc, &mut sets, &rest[4..4 + len], at as u64 + 4)?;
                at += 4 + len;
            }
            None => return Err(IndexFault::BrokenTable { at: at as u64 }),
        }
    }
    if at < table.len() {
        return Err(IndexFault::BrokenTable { at: at as u64 });
    }
    Ok(sets)
}

/// How long the label set at the front is. None where its length is cut off or goes past the end.
fn frame_len(bytes: &[u8]) -> Option<usize>
    ensures { result ≡ frame_len bytes.now }
{
    if bytes.len() < 4 {
        return None;
    }
    let (front, rest) = bytes.split_at(4);
    let len = u32::from_be_bytes([front[0], front[1], front[2], front[3]]) as usize;
    if rest.len() < len {
        return None;
    }
    Some(len)
}

/// Reads the label set whose bytes these are, which stand at a place of the table, and puts it
/// after those before it.
fn read_set(alloc: Global, sets: &mut List<Labels>, bytes: &[u8], at: u64) -> Result<(), IndexFault>
    requires sets { AreSets sets.old }
    requires place { at + length bytes.now < 2 ^ 64 }
    ensures ok { OnOk result (Joins sets.old bytes.now sets.new) }
    ensures err { IfErr result (λ fault. SetFault sets.old bytes.now at fault) }
{
    let set = match Labels::read(alloc, bytes) {
        Ok(set) => set,
        Err(ReadFault::Broken { at: place }) => return Err(IndexFault::BrokenTable {
            at: at + place,
        }),
        Err(ReadFault::Memory) => return Err(IndexFault::Memory),
    };
    if !follows(sets.as_slice(), &set) {
        return Err(IndexFault::BrokenTable { at });
    }
    sets.push(set)?;
    Ok(())
}

/// Whether a set stands after all of those, which rise.
fn follows(sets: &[Labels], set: &Labels) -> bool
    requires { SetsRise sets.now }
    ensures { result ≡ list_all (λ s. is_set_below s set.now) sets.now }
{
    match sets.len() {
        0 => true,
        n => sets[n - 1] < *set,
    }
}

/// The place of the first field that isn't the due one of the postings.
pub(crate) fn first_off(postings: &[Posting], bytes: &[u8]) -> Option<u64>
    requires { AllByRecursion (λ q. is_too_long q.pair ≡ false) postings.now }
    ensures { result ≡ first_off (postings_fields postings.now) bytes.now }
{
    let left = match behind_all(postings, bytes) {
        Ok(rest) => {
            if rest.is_empty() {
                return None;
            }
            rest.len()
        }
        Err(left) => left,
    };
    Some((bytes.len() - left) as u64)
}

/// The bytes after postings, or how many there are from the first wrong field on.
fn behind_all<'a>(postings: &[Posting], bytes: &'a [u8]) -> Result<&'a [u8], usize>
    requires { AllByRecursion (λ q. is_too_long q.pair ≡ false) postings.now }
    ensures { Gives (λ rest. rest.now) result
        (behind_all (postings_fields postings.now) bytes.now) }
{
    let mut rest = behind(&(postings.len() as u64).to_be_bytes(), bytes)?;
    for posting in postings {
        rest = behind_posting(posting, rest)?;
    }
    Ok(rest)
}

/// The bytes after one posting.
fn behind_posting<'a>(posting: &Posting, bytes: &'a [u8]) -> Result<&'a [u8], usize>
    requires { is_too_long posting.now.pair ≡ false }
    ensures { Gives (λ rest. rest.now) result (behind_all (posting_fields posting.now) bytes.now) }
{
    let rest = behind_text(posting.pair.name.as_str(), bytes)?;
    let rest = behind_text(posting.pair.value.as_str(), rest)?;
    behind_numbers(posting.ordinals.as_slice(), rest)
}

/// The bytes after how many numbers there are, and each number.
fn behind_numbers<'a>(numbers: &[u64], bytes: &'a [u8]) -> Result<&'a [u8], usize>
    ensures { Gives (λ rest. rest.now) result
        (behind_all (to_be_bytes w64 (length numbers.now) ∷ map (to_be_bytes w64) numbers.now)
        bytes.now) }
{
    let mut rest = behind(&(numbers.len() as u64).to_be_bytes(), bytes)?;
    for number in numbers {
        rest = behind(&number.to_be_bytes(), rest)?;
    }
    Ok(rest)
}

/// The bytes after a text and its length.
fn behind_text<'a>(text: &str, bytes: &'a [u8]) -> Result<&'a [u8], usize>
    requires { length text.now < 2 ^ 16 }
    ensures { Gives (λ rest. rest.now) result (behind_all (text_fields text.now) bytes.now) }
{
    let rest = behind(&(text.len() as u16).to_be_bytes(), bytes)?;
    behind(text.as_bytes(), rest)
}

/// The bytes after a field.
fn behind<'a>(field: &[u8], bytes: &'a [u8]) -> Result<&'a [u8], usize>
    ensures { Gives (λ rest. rest.now) result (behind field.now bytes.now) }
{
    match bytes.strip_prefix(field) {
        Some(rest) => Ok(rest),
        None => Err(bytes.len()),
    }
}
