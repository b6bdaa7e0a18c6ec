//! Which label sets a selector selects, by `vm_match`: each operator over labels that are there and
//! that aren't, lists, and what can't be built. The rows are by hand.

ghost use Rattle.std.specs.Prelude.{◌≡◌, ◌<◌};

use crate::labels::set_of;
use std::alloc::{AllocError, Global};
use std::marker::Brand;
use std::sync::ledger::{Blank, Ledger};
use vm_base::{List, Steps, Text};
use vm_labels::{Filter, FilterOp, Labels, Selector};
use vm_match::{MatchFault, Matcher};
use vm_outside::Pattern;
use vm_patterns::MemPatterns;

/// Selectors, and what a matcher of each tells of `{job="x"}`. A list begins with `{`, and its
/// filters are parted by commas. The builder takes no text that begins with `(`, and it refuses its
/// twelfth call, which is for the text `r`.
const ROWS: &str = "\
{job = x -> yes
{job = y -> no
{job =  -> no
{none =  -> yes
{none = x -> no
{job != x -> no
{job != y -> yes
{none !=  -> no
{none != x -> yes
{job =~ x -> yes
{job =~ y -> no
{none =~  -> yes
{none =~ x -> no
{job !~ x -> no
{job !~ y -> yes
{none !~  -> no
{none !~ x -> yes
 -> no
{ -> yes
{job = x,job = y -> no
{job = y{job = x -> yes
{job = x{job = y -> yes
{job = y{job = y,job = x -> no
{job = (,job =~ x{job !~ (b,job =~ (c -> bad (b
{job =~ x,job =~ r,job =~ (b -> refused r
";

/// Whether a row is right.
fn is_right(alloc: Global, patterns: &mut MemPatterns, row: &str) -> Result<bool, AllocError> {
    let Some((lists, due)) = row.split_once(" -> ") else {
        return Ok(false);
    };
    let selector = selector_of(alloc, lists)?;
    let Ok(labels) = set_of(alloc, "job=x") else {
        return Ok(false);
    };
    match Matcher::build(alloc, &selector, patterns) {
        Ok(mut matcher) => {
            if matcher.selector().lists.len() != selector.lists.len() {
                return Ok(false);
            }
            let answer = answer_of(selects::<Brand, _>(&mut matcher, &labels, Blank::new(1))?);
            Ok(due == answer)
        }
        Err(MatchFault::BadPattern { text }) => Ok(due.strip_prefix("bad ") == Some(text.as_str())),
        Err(MatchFault::PatternRefused { text }) => {
            Ok(due.strip_prefix("refused ") == Some(text.as_str()))
        }
        Err(MatchFault::Memory) => Err(AllocError),
    }
}

fn answer_of(selected: bool) -> &'static str {
    if selected { "yes" } else { "no" }
}

fn selects<L: Ledger, M: Pattern>(
    matcher: &mut Matcher<M>,
    labels: &Labels,
    blank: Blank,
) -> Result<bool, AllocError>
    requires name { blank.name ≡ L.name }
    requires parts { blank.parts ≡ L.parts }
    requires some { 0 < blank.parts }
{
    let mut steps = Steps::<L>::open(blank);
    matcher.selects(labels, &mut steps)
}

fn selector_of(alloc: Global, text: &str) -> Result<Selector, AllocError> {
    let mut lists = List::new(alloc);
    let mut parts = text.split('{');
    let _before = parts.next();
    for filters in parts {
        lists.push(filters_of(alloc, filters)?)?;
    }
    Ok(Selector { lists })
}

/// Filters, each a name, an operator and a text between blanks. What has none is no filter.
fn filters_of(alloc: Global, text: &str) -> Result<List<Filter>, AllocError> {
    let mut filters = List::new(alloc);
    for filter in text.split(',') {
        let Some((name, rest)) = filter.split_once(' ') else {
            continue;
        };
        let Some((op, value)) = rest.split_once(' ') else {
            continue;
        };
        let op = match op {
            "=" => FilterOp::Equal,
            "!=" => FilterOp::Differs,
            "=~" => FilterOp::Matches,
            _ => FilterOp::MatchesNot,
        };
        filters.push(Filter {
            name: Text::from_str(alloc, name)?,
            op,
            value: Text::from_str(alloc, value)?,
        })?;
    }
    Ok(filters)
}

/// Each row comes to what is expected of it, and what is refused is counted. A matcher keeps its
/// selector.
#[test]
fn rows(rt: HostRuntime) -> Result<(), AllocError> {
    let failing = Vec::from_array(rt.alloc(), [11])?;
    let mut patterns = MemPatterns::new(rt.alloc(), failing);
    for row in ROWS.lines() {
        assert!(rt; is_right(rt.alloc(), &mut patterns, row)?, "{row}");
    }
    assert!(rt; patterns.refusals() == 1);
    Ok(())
}
