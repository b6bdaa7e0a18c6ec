//! The postings of label sets: an entry for each pair of each set, sorted and gathered.

ghost use Rattle.std.specs.Prelude.{◌≡◌, ◌≤◌, ◌++◌, length, map, IfOk, OnOk};
ghost use Rattle.std.specs.List.{AllByRecursion, prefix_len};
ghost use Rattle.vm_labels.specs.Labels.{IsLabels, pair_eq};
ghost use Rattle.vm_index.specs.Index.{postings_of};
ghost use Rattle.vm_index.specs.inner.Entries.{entries_from, gathered, seen};

use crate::Posting;
use std::alloc::{AllocError, Global};
use vm_base::List;
use vm_labels::{Labels, Pair};

/// A pair, and the ordinal of a set that has it.
#[derive(Clone, Copy, PartialEq, Eq, PartialOrd, Ord)]
pub(crate) struct Entry<'a> {
    pair: &'a Pair,
    ordinal: u64,
}

/// Each pair of the sets with the ordinals of the sets that have it.
pub(crate) fn postings_of(alloc: Global, sets: &[Labels]) -> Result<List<Posting>, AllocError>
    ensures { IfOk result (λ postings. postings ≡ postings_of sets.now) }
{
    let mut entries = entries_of(alloc, sets)?;
    entries.sort_unstable();
    let postings = gathered(alloc, &entries)?;
    Ok(List::from_vec(postings))
}

/// An entry for each pair of each set.
fn entries_of<'a>(alloc: Global, sets: &'a [Labels]) -> Result<Vec<Entry<'a>>, AllocError>
    ensures entries { IfOk result (λ entries. map seen entries.items ≡ entries_from 0 sets.now) }
    ensures labels { OnOk result (AllByRecursion IsLabels sets.now) }
{
    let mut entries = Vec::new(alloc);
    for (at, set) in sets.iter().enumerate() {
        put_entries(&mut entries, set.as_slice(), at as u64)?;
    }
    Ok(entries)
}

/// Appends an entry for each pair of a set.
fn put_entries<'a>(
    entries: &mut Vec<Entry<'a>>,
    pairs: &'a [Pair],
    ordinal: u64,
) -> Result<(), AllocError>
    ensures { OnOk result
        (map seen entries.new.items ≡ map seen entries.old.items
        ++ map (λ p. (p, ordinal)) pairs.now) }
{
    for pair in pairs {
        entries.push(Entry { pair, ordinal })?;
    }
    Ok(())
}

/// The postings of entries in order: neighbours of one pair become one.
fn gathered(alloc: Global, entries: &[Entry]) -> Result<Vec<Posting>, AllocError>
    ensures { IfOk result (λ postings. postings.items ≡ gathered (map seen entries.now)) }
{
    let mut postings = Vec::new(alloc);
    let mut at = 0;
    while at < entries.len() {
        let rest = &entries[at..];
        let pair = rest[0].pair;
        let len = group_len(pair, rest);
        postings.push(collected(alloc, pair, &rest[..len])?)?;
        at += len;
    }
    Ok(postings)
}

/// How many entries at the front are of a pair.
fn group_len(pair: &Pair, entries: &[Entry]) -> usize
    ensures value { result ≡ prefix_len (λ e. pair_eq (seen e).0 pair.now) entries.now }
    ensures within { result ≤ length entries.now }
{
    let mut len = 0;
    for entry in entries {
        if entry.pair != pair {
            return len;
        }
        len += 1;
    }
    len
}

/// The posting of a pair, from its entries.
fn collected(alloc: Global, pair: &Pair, group: &[Entry]) -> Result<Posting, AllocError>
    ensures { IfOk result
        (λ p. p ≡ record { pair = pair.now; ordinals = map (λ e. (seen e).1) group.now }) }
{
    let ordinals: Vec<u64> = group.iter().map(|entry| entry.ordinal).collect(alloc)?;
    Ok(Posting {
        pair: pair.copy(alloc)?,
        ordinals: List::from_vec(ordinals),
    })
}
