//! Label sets from other label sets.

ghost use Rattle.std.specs.Prelude.{◌≡◌, ◌∷◌, [], filter, IfOk, Ok};
ghost use Rattle.vm_base.specs.Sorted.{sorted};
ghost use Rattle.vm_labels.specs.Labels.{Gives, is_among, is_in_pair_order, keeps, labels_only, labels_with, labels_without};

use crate::{LabelFault, Labels, Pair, is_name};
use std::alloc::{AllocError, Global};
use std::slice;
use vm_base::{List, Text};

impl Labels {
    /// The same set.
    pub fn copy(&self, alloc: Global) -> Result<Labels, LabelFault>
        ensures { Gives result (Ok self.now) }
    {
        let pairs = copied(alloc, self.as_slice())?;
        Ok(Labels::from_pairs(List::from_vec(pairs)))
    }

    /// The set with this value in place of the one that the name has, or without the name where the
    /// value is empty. `BadName` with place 0 where the name is none, whatever the value.
    pub fn with(&self, alloc: Global, name: &str, value: &str) -> Result<Labels, LabelFault>
        ensures { Gives result (labels_with name.now value.now self.now) }
    {
        if !is_name(name.as_bytes()) {
            return Err(LabelFault::BadName { index: 0 });
        }
        let name = Text::from_str(alloc, name)?;
        let pairs = kept(alloc, self.as_slice(), slice::from_ref(&name), false)?;
        if value.is_empty() {
            return Ok(Labels::from_pairs(List::from_vec(pairs)));
        }
        let value = Text::from_str(alloc, value)?;
        let pairs = with_pair(pairs, Pair { name, value })?;
        Ok(Labels::from_pairs(List::from_vec(pairs)))
    }

    /// The labels whose name is one of these.
    pub fn only(&self, alloc: Global, names: &[Text]) -> Result<Labels, LabelFault>
        ensures { Gives result (Ok (labels_only names.now self.now)) }
    {
        let pairs = kept(alloc, self.as_slice(), names, true)?;
        Ok(Labels::from_pairs(List::from_vec(pairs)))
    }

    /// The labels whose name is none of these.
    pub fn without(&self, alloc: Global, names: &[Text]) -> Result<Labels, LabelFault>
        ensures { Gives result (Ok (labels_without names.now self.now)) }
    {
        let pairs = kept(alloc, self.as_slice(), names, false)?;
        Ok(Labels::from_pairs(List::from_vec(pairs)))
    }
}

impl Pair {
    /// The same pair.
    pub fn copy(&self, alloc: Global) -> Result<Pair, AllocError>
        ensures { IfOk result (λ copy. copy ≡ self.now) }
    {
        let name = self.name.copy(alloc)?;
        let value = self.value.copy(alloc)?;
        Ok(Pair { name, value })
    }
}

/// Copies of the pairs.
fn copied(alloc: Global, pairs: &[Pair]) -> Result<Vec<Pair>, AllocError>
    ensures { IfOk result (λ copies. copies.items ≡ pairs.now) }
{
    let mut copies = Vec::with_capacity(alloc, pairs.len())?;
    for pair in pairs {
        copies.push(pair.copy(alloc)?)?;
    }
    Ok(copies)
}

/// Copies of the pairs whose name is among the names, or else of those whose name isn't.
fn kept(alloc: Global, pairs: &[Pair], names: &[Text], among: bool) -> Result<Vec<Pair>, AllocError>
    ensures { IfOk result
        (λ copies. copies.items ≡ filter (λ p. keeps among names.now p) pairs.now) }
{
    let mut copies = Vec::new(alloc);
    for pair in pairs {
        if is_among(names, &pair.name) == among {
            copies.push(pair.copy(alloc)?)?;
        }
    }
    Ok(copies)
}

/// The pairs and one more, by name.
fn with_pair(mut pairs: Vec<Pair>, pair: Pair) -> Result<Vec<Pair>, AllocError>
    ensures { IfOk result (λ all. all.items ≡ sorted is_in_pair_order (pair ∷ pairs.items)) }
{
    pairs.push(pair)?;
    pairs.sort_unstable();
    Ok(pairs)
}

fn is_among(names: &[Text], name: &Text) -> bool
    ensures { result ≡ is_among names.now name.now }
{
    names.iter().any(|other| name == other)
}
