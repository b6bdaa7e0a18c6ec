//! Label sets.

ghost use Rattle.std.specs.Prelude.{◌≡◌, option_map, position};
ghost use Rattle.vm_labels.specs.Labels.{IsLabels, value_of, limit_of, is_too_long};

use crate::{LimitFault, Pair};
use std::cmp::Ordering;
use std::marker::Model;
use vm_base::List;
use vm_base::limits::{MAX_LABEL_NAME, MAX_LABEL_VALUE, MAX_LABELS, MIN_LABELS};

/// The labels of a series: names with nonempty values, rising by name. Contracts see the list of
/// the pairs.
///
/// Label sets are in order as lists of pairs, each by its bytes.
#[derive(Debug, Drop)]
pub struct Labels {
    pairs: List<Pair>,
}

impl Model for Labels {
    ghost use Rattle.std.specs.Prelude.{List};
    ghost use Rattle.vm_labels.specs.declared.pair.Pair.{Pair};
    ghost use Rattle.vm_labels.specs.Labels.{IsLabels};

    ghost Value = { List Pair };

    ghost view = { λ labels. labels.pairs };

    ghost invariant = { λ labels. IsLabels labels.pairs };
}

impl Labels {
    /// The pairs, by name. A caller learns from it that they are a label set.
    pub fn as_slice(&self) -> &[Pair]
        ensures pairs { result.now ≡ self.now }
        ensures labels { IsLabels self.now }
    {
        self.pairs.as_slice()
    }

    /// The value of a name. None where the set lacks the name.
    pub fn get(&self, name: &str) -> Option<&str>
        ensures { option_map (λ value. value.now) result ≡ value_of name.now self.now }
    {
        for pair in self.as_slice() {
            match pair.name.as_str().cmp(name) {
                Ordering::Less => {}
                Ordering::Equal => return Some(pair.value.as_str()),
                Ordering::Greater => return None,
            }
        }
        None
    }

    /// Which limit of an import the set breaks: the first one, in the order of `LimitFault`.
    pub fn limit(&self) -> Option<LimitFault>
        ensures { result ≡ limit_of self.now }
    {
        let n = self.pairs.len() as u64;
        if n < MIN_LABELS {
            return Some(LimitFault::NoLabel);
        }
        if n > MAX_LABELS {
            return Some(LimitFault::TooMany { n });
        }
        match long_place(self.as_slice()) {
            Some(index) => Some(LimitFault::TooLong {
                index: index as u64,
            }),
            None => None,
        }
    }

    /// The set of these pairs.
    pub(crate) fn from_pairs(pairs: List<Pair>) -> Labels
        requires { IsLabels pairs }
        ensures { result ≡ pairs }
    {
        Labels { pairs }
    }
}

/// The place of the first label that is too long.
fn long_place(pairs: &[Pair]) -> Option<usize>
    ensures { result ≡ position is_too_long pairs.now }
{
    pairs.iter().position(is_too_long)
}

fn is_too_long(pair: &Pair) -> bool
    ensures { result ≡ is_too_long pair.now }
{
    pair.name.len() as u64 > MAX_LABEL_NAME || pair.value.len() as u64 > MAX_LABEL_VALUE
}

impl PartialEq for Labels {
    ghost use Rattle.std.specs.Cmp.Rules.{comparing};
    ghost use Rattle.std.proofs.Common.{rules};
    ghost use Rattle.vm_labels.specs.Labels.{label_eq};

    ghost eq = { label_eq };

    ghost laws = { Prim.search (comparing, rules) };

    fn eq(&self, other: &Labels) -> bool {
        self.as_slice() == other.as_slice()
    }
}

impl Eq for Labels {
    ghost use Rattle.std.specs.Cmp.Rules.{comparing};
    ghost use Rattle.std.proofs.Common.{rules};

    ghost laws = { Prim.search (comparing, rules) };
}

impl PartialOrd for Labels {
    ghost use Rattle.std.specs.Cmp.{partial_order_from_own_ties};
    ghost use Rattle.std.specs.Cmp.Rules.{comparing};
    ghost use Rattle.std.specs.Ordering.{as_partial_cmp};
    ghost use Rattle.std.proofs.Common.{rules};
    ghost use Rattle.vm_labels.specs.Labels.{label_cmp};
    ghost use Rattle.vm_labels.specs.Ties.{labels_tie};

    ghost partial_cmp = { as_partial_cmp label_cmp };

    ghost laws = { partial_order_from_own_ties (Prim.search (comparing, rules)) labels_tie };

    fn partial_cmp(&self, other: &Labels) -> Option<Ordering> {
        Some(self.cmp(other))
    }
}

impl Ord for Labels {
    ghost use Rattle.std.specs.Cmp.Rules.{comparing};
    ghost use Rattle.std.proofs.Common.{rules};
    ghost use Rattle.vm_labels.specs.Labels.{label_cmp};
    ghost use Rattle.vm_labels.specs.Ties.{labels_tie};

    ghost cmp = { label_cmp };

    ghost total = { Prim.search (comparing, rules) };

    ghost matches_partial_cmp = { Prim.search (comparing, rules) };

    ghost matches_eq = { labels_tie };

    fn cmp(&self, other: &Labels) -> Ordering {
        self.as_slice().cmp(other.as_slice())
    }
}
