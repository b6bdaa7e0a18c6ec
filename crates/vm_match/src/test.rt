//! The tests that a matcher makes of a label set, one for each filter.

ghost use Rattle.std.specs.Prelude.{◌≡◌, map, IfOk};
ghost use Rattle.std.specs.List.{list_all, list_any};
ghost use Rattle.vm_labels.specs.Selected.{meets};
ghost use Rattle.vm_match.specs.Tests.{asked, kept};

use std::alloc::AllocError;
use vm_base::List;
use vm_labels::{Filter, Labels};
use vm_outside::Pattern;

/// How a filter is tested, with its pattern where it has one. Its name and its text stand in the
/// filter.
#[derive(Drop)]
pub(crate) enum Test<M> {
    Equal,
    Differs,
    Matches(M),
    MatchesNot(M),
}

/// Whether a label set meets all filters of some list. `tests` are those of the lists.
pub(crate) fn meets_any<M: Pattern>(
    lists: &[List<Filter>],
    tests: &mut [Vec<Test<M>>],
    labels: &Labels,
) -> Result<bool, AllocError>
    requires built { map (λ list. map (kept M.text) list.items) tests.old ≡ map (map asked) lists.now }
    ensures value { IfOk result (λ met. met
        ≡ list_any (λ filters. list_all (λ f. meets M.matches f labels.now) filters) lists.now) }
    ensures kept { map (λ list. map (kept M.text) list.items) tests.new
        ≡ map (λ list. map (kept M.text) list.items) tests.old }
{
    for (at, filters) in lists.iter().enumerate() {
        if meets_all(filters.as_slice(), tests[at].as_mut_slice(), labels)? {
            return Ok(true);
        }
    }
    Ok(false)
}

/// Whether a label set meets all filters. `tests` are theirs.
fn meets_all<M: Pattern>(
    filters: &[Filter],
    tests: &mut [Test<M>],
    labels: &Labels,
) -> Result<bool, AllocError>
    requires built { map (kept M.text) tests.old ≡ map asked filters.now }
    ensures value { IfOk result
        (λ met. met ≡ list_all (λ f. meets M.matches f labels.now) filters.now) }
    ensures kept { map (kept M.text) tests.new ≡ map (kept M.text) tests.old }
{
    for (at, filter) in filters.iter().enumerate() {
        if !is_met(filter, &mut tests[at], labels)? {
            return Ok(false);
        }
    }
    Ok(true)
}

/// Whether a label set meets a filter. `test` is the filter's.
fn is_met<M: Pattern>(
    filter: &Filter,
    test: &mut Test<M>,
    labels: &Labels,
) -> Result<bool, AllocError>
    requires built { kept M.text test.old ≡ asked filter.now }
    ensures value { IfOk result (λ met. met ≡ meets M.matches filter.now labels.now) }
    ensures kept { kept M.text test.new ≡ kept M.text test.old }
{
    let value = labels.get(filter.name.as_str()).unwrap_or("");
    match test {
        Test::Equal => Ok(value == filter.value.as_str()),
        Test::Differs => Ok(value != filter.value.as_str()),
        Test::Matches(pattern) => Ok(pattern.whole(value)?),
        Test::MatchesNot(pattern) => Ok(!pattern.whole(value)?),
    }
}
