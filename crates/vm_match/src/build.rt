//! The tests of a selector's filters, with their patterns built.

ghost use Rattle.std.specs.Prelude.{◌≡◌, [], ◌∷◌, ◌≤◌, map, IfOk, IsOk, IfErr};
ghost use Rattle.std.specs.List.{flat_map};
ghost use Rattle.vm_match.specs.Built.{Answers, pattern_in, patterns_in};
ghost use Rattle.vm_match.specs.Tests.{asked, kept};

use crate::MatchFault;
use crate::test::Test;
use std::alloc::Global;
use vm_base::{List, Text};
use vm_labels::{Filter, FilterOp};
use vm_outside::{PatternFault, Patterns};

/// The tests of lists of filters.
pub(crate) fn tests_of_lists<P: Patterns>(
    alloc: Global,
    lists: &[List<Filter>],
    patterns: &mut P,
) -> Result<Vec<Vec<Test<P::Built>>>, MatchFault>
    ensures built { IfOk result (λ tests.
        map (λ list. map (kept P.Built.text) list.items) tests.items ≡ map (map asked) lists.now) }
    ensures answer { Answers P.IsPattern (flat_map patterns_in lists.now)
        (P.refusals patterns.old) (P.refusals patterns.new) result }
    ensures counted { P.refusals patterns.old ≤ P.refusals patterns.new }
{
    let mut tests = List::from_vec(Vec::with_capacity(alloc, lists.len())?);
    for filters in lists {
        tests.push(tests_of(alloc, filters.as_slice(), patterns)?)?;
    }
    Ok(tests.into_vec())
}

/// The tests of filters.
fn tests_of<P: Patterns>(
    alloc: Global,
    filters: &[Filter],
    patterns: &mut P,
) -> Result<Vec<Test<P::Built>>, MatchFault>
    ensures built { IfOk result
        (λ tests. map (kept P.Built.text) tests.items ≡ map asked filters.now) }
    ensures answer { Answers P.IsPattern (patterns_in filters.now)
        (P.refusals patterns.old) (P.refusals patterns.new) result }
    ensures counted { P.refusals patterns.old ≤ P.refusals patterns.new }
{
    let mut tests = List::from_vec(Vec::with_capacity(alloc, filters.len())?);
    for filter in filters {
        tests.push(test_of(alloc, filter, patterns)?)?;
    }
    Ok(tests.into_vec())
}

/// The test of a filter.
fn test_of<P: Patterns>(
    alloc: Global,
    filter: &Filter,
    patterns: &mut P,
) -> Result<Test<P::Built>, MatchFault>
    ensures built { IfOk result (λ test. kept P.Built.text test ≡ asked filter.now) }
    ensures answer { Answers P.IsPattern (pattern_in filter.now.op filter.now.value)
        (P.refusals patterns.old) (P.refusals patterns.new) result }
    ensures counted { P.refusals patterns.old ≤ P.refusals patterns.new }
{
    match filter.op {
        FilterOp::Equal => Ok(Test::Equal),
        FilterOp::Differs => Ok(Test::Differs),
        FilterOp::Matches => Ok(Test::Matches(pattern_of(alloc, &filter.value, patterns)?)),
        FilterOp::MatchesNot => Ok(Test::MatchesNot(pattern_of(alloc, &filter.value, patterns)?)),
    }
}

/// The pattern of a text.
fn pattern_of<P: Patterns>(
    alloc: Global,
    text: &Text,
    patterns: &mut P,
) -> Result<P::Built, MatchFault>
    ensures built { IfOk result (λ pattern. P.Built.text pattern ≡ text.now) }
    ensures answer { Answers P.IsPattern (text.now ∷ [])
        (P.refusals patterns.old) (P.refusals patterns.new) result }
    ensures counted { P.refusals patterns.old ≤ P.refusals patterns.new }
{
    match patterns.build(text.as_str()) {
        Ok(pattern) => Ok(pattern),
        Err(PatternFault::Syntax) => {
            let text = text.copy(alloc)?;
            Err(MatchFault::BadPattern { text })
        }
        Err(PatternFault::Refused) => {
            let text = text.copy(alloc)?;
            Err(MatchFault::PatternRefused { text })
        }
        Err(PatternFault::Memory) => Err(MatchFault::Memory),
    }
}
