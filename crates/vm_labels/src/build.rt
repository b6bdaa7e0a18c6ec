//! Label sets from pairs in any order.

ghost use Rattle.std.specs.Prelude.{◌≡◌, [], filter, position, option_map, IfOk};
ghost use Rattle.vm_labels.specs.Labels.{Gives, built, has_value, is_badly_named, is_below, names_rise, ordered, twice_named};

use crate::{LabelFault, Labels, Pair, is_name};
use std::alloc::{AllocError, Global};
use std::collections::BTreeSet;
use vm_base::{List, Text};

impl Labels {
    /// The label set of these pairs, which may come in any order. A pair with an empty value counts
    /// as one that isn't there.
    ///
    /// The texts are moved, not copied. Where the names rise already, no memory is needed.
    pub fn build(alloc: Global, pairs: List<Pair>) -> Result<Labels, LabelFault>
        ensures { Gives result (built pairs) }
    {
        if let Some(index) = bad_place(pairs.as_slice()) {
            return Err(LabelFault::BadName {
                index: index as u64,
            });
        }
        let pairs = ordered(alloc, filled(pairs.into_vec()))?;
        Ok(Labels::from_pairs(pairs))
    }
}

/// The pairs by name, unless two have one name.
fn ordered(alloc: Global, mut pairs: Vec<Pair>) -> Result<List<Pair>, LabelFault>
    ensures { Gives result (ordered pairs.items) }
{
    if names_rise(&pairs) {
        return Ok(List::from_vec(pairs));
    }
    if let Some(pair) = twice_named(alloc, &pairs)? {
        let name = pair.name.copy(alloc)?;
        return Err(LabelFault::TwiceNamed { name });
    }
    pairs.sort_unstable();
    Ok(List::from_vec(pairs))
}

/// The place of the first pair with a value whose name is none.
fn bad_place(pairs: &[Pair]) -> Option<usize>
    ensures { result ≡ position is_badly_named pairs.now }
{
    pairs.iter().position(is_badly_named)
}

fn is_badly_named(pair: &Pair) -> bool
    ensures { result ≡ is_badly_named pair.now }
{
    !pair.value.is_empty() && !is_name(pair.name.as_str().as_bytes())
}

/// The pairs that have a value.
fn filled(mut pairs: Vec<Pair>) -> Vec<Pair>
    ensures { result.items ≡ filter has_value pairs.items }
{
    pairs.retain(has_value);
    pairs
}

fn has_value(pair: &Pair) -> bool
    ensures { result ≡ has_value pair.now }
{
    !pair.value.is_empty()
}

/// Whether each name comes strictly before the next one, and so before all that follow.
fn names_rise(pairs: &[Pair]) -> bool
    ensures { result ≡ names_rise pairs.now }
{
    for at in 1..pairs.len() {
        if !is_below(&pairs[at - 1].name, &pairs[at].name) {
            return false;
        }
    }
    true
}

fn is_below(name: &Text, other: &Text) -> bool
    ensures { result ≡ is_below name.now other.now }
{
    name < other
}

/// The first pair whose name an earlier one has.
fn twice_named(alloc: Global, pairs: &[Pair]) -> Result<Option<&Pair>, AllocError>
    ensures { IfOk result
        (λ found. option_map (λ pair. pair.now.name) found ≡ twice_named [] pairs.now) }
{
    let mut seen: BTreeSet<&str> = BTreeSet::new(alloc);
    for pair in pairs {
        if !seen.insert(pair.name.as_str())? {
            return Ok(Some(pair));
        }
    }
    Ok(None)
}
