//! `vm_base`: samples and their order, texts, lists, boxes and counts of steps.
//!
//! The expected values were worked out by hand.
ghost use Rattle.std.specs.Prelude.{◌≡◌, ◌+◌, ◌<◌, ◌≤◌, length};

use std::alloc::{AllocError, Global};
use std::cmp::Ordering;
use std::marker::Brand;
use std::str;
use std::sync::ledger::{Blank, Ledger};
use test_rows::bytes_of;
use vm_base::{Boxed, Broken, List, Sample, Stamped, Steps, Text};

/// A word, what is given and what is due, by its word:
///
/// - `sample m e -> m e`: the sample that is `m * 10^e` in normal form, `none` where there is none;
/// - `samples m e|m e -> order`: how the first of two samples compares with the other one;
/// - `texts text|text -> order`: the same of two texts.
const ROWS: &str = "\
sample 0 0 -> 0 0
sample 0 32767 -> 0 0
sample 0 -32768 -> 0 0
sample 10 0 -> 1 1
sample -5 -1 -> -5 -1
sample -1230 2 -> -123 3
sample 1 350 -> 1 350
sample 1 351 -> none
sample 10 349 -> 1 350
sample 10 350 -> none
sample 1 -350 -> 1 -350
sample 1 -351 -> none
sample 10 -351 -> 1 -350
sample 1 32767 -> none
sample 1 -32768 -> none
sample 100000 -1005 -> none
sample 999999999999999999 0 -> 999999999999999999 0
sample 1000000000000000000 0 -> 1 18
sample 1000000000000000001 0 -> none
sample 9223372036854775807 0 -> none
sample -9223372036854775808 0 -> none
samples 1 2|99 0 -> greater
samples -1 0|0 0 -> less
samples 0 0|5 -1 -> less
samples 0 0|1 -350 -> less
samples 0 0|1 350 -> less
samples 0 0|-1 -350 -> greater
samples -10 0|-95 -1 -> less
samples 1 350|999999999999999999 0 -> greater
samples -1 350|999999999999999999 0 -> less
samples 1 18|999999999999999999 0 -> greater
samples 1 17|999999999999999999 0 -> less
samples 100 0|1 2 -> equal
samples 0 5|0 0 -> equal
samples -25 -1|-250 -2 -> equal
texts | -> equal
texts |a -> less
texts ab|b -> less
texts b|ab -> greater
texts z|é -> less
texts é|é -> equal
";

/// Whether a row is right.
fn is_right(alloc: Global, row: &str) -> Result<bool, AllocError> {
    let Some((given, due)) = row.split_once(" -> ") else {
        return Ok(false);
    };
    match given.split_once(" ") {
        Some(("sample", number)) => Ok(is_sample(number, due)),
        Some(("samples", numbers)) => Ok(are_in_order(numbers, due) == Some(true)),
        Some(("texts", texts)) => match texts.split_once("|") {
            Some((one, other)) => are_texts(alloc, one, other, due),
            None => Ok(false),
        },
        _ => Ok(false),
    }
}

/// A mantissa and an exponent.
fn parts(text: &str) -> Option<(i64, i16)> {
    let (m, e) = text.split_once(" ")?;
    Some((m.parse().ok()?, e.parse().ok()?))
}

fn is_sample(number: &str, due: &str) -> bool {
    let Some((m, e)) = parts(number) else {
        return false;
    };
    match (Sample::of(m, e), parts(due)) {
        (Some(sample), Some((m, e))) => sample.m() == m && sample.e() == e,
        (None, None) => due == "none",
        _ => false,
    }
}

/// The sample of a mantissa and an exponent.
pub(crate) fn sample(text: &str) -> Option<Sample> {
    let (m, e) = parts(text)?;
    Sample::of(m, e)
}

fn are_in_order(numbers: &str, due: &str) -> Option<bool> {
    let (one, other) = numbers.split_once("|")?;
    Some(stand(&sample(one)?, &sample(other)?, due))
}

fn are_texts(alloc: Global, one: &str, other: &str, due: &str) -> Result<bool, AllocError> {
    let first = Text::from_str(alloc, one)?;
    let second = Text::from_str(alloc, other)?;
    let first = first.copy(alloc)?;
    Ok(first.as_str() == one && first.len() == one.len() && stand(&first, &second, due))
}

/// The text whose bytes a row writes.
pub(crate) fn text_of(alloc: Global, text: &str) -> Result<Text, AllocError> {
    let bytes = bytes_of(alloc, text)?;
    Text::from_str(alloc, str::from_utf8(bytes.as_slice()).unwrap_or("no text"))
}

/// Whether the first value compares so with the other one, by each comparison.
pub(crate) fn stand<T: Ord>(one: &T, other: &T, due: &str) -> bool {
    let order = match due {
        "less" => Ordering::Less,
        "equal" => Ordering::Equal,
        "greater" => Ordering::Greater,
        _ => return false,
    };
    one.cmp(other) == order
        && other.cmp(one) == order.reverse()
        && one.partial_cmp(other) == Some(order)
        && (one == other) == (order == Ordering::Equal)
        && (one < other) == (order == Ordering::Less)
}

#[test]
fn rows(rt: HostRuntime) -> Result<(), AllocError> {
    assert_eq!(rt; Sample::of(0, 7), Some(Sample::ZERO));
    assert!(rt; Text::new(rt.alloc()).is_empty());
    for row in ROWS.lines() {
        assert!(rt; is_right(rt.alloc(), row)?, "{row}");
    }
    Ok(())
}

/// A whole number at a time.
fn stamped(time: u64, number: i64) -> Stamped {
    Stamped {
        time,
        value: Sample::of(number, 0).unwrap_or(Sample::ZERO),
    }
}

#[test]
fn order_in_time(rt: HostRuntime) -> Result<(), AllocError> {
    assert!(rt; stamped(1, 9).is_in_order(stamped(2, 3)));
    assert!(rt; stamped(1, 3).is_in_order(stamped(1, 9)));
    assert!(rt; stamped(1, 9).is_in_order(stamped(1, 9)));
    assert!(rt; !stamped(1, 9).is_in_order(stamped(1, 3)));
    let due = [stamped(1, -5), stamped(1, 5), stamped(2, -4)];
    let mut list = Vec::from_array(rt.alloc(), [stamped(2, -4), stamped(1, 5), stamped(1, -5)])?;
    list.sort()?;
    assert!(rt; list.as_slice() == due.as_slice());
    Ok(())
}

/// A list that has these numbers put to its end, and 4 in place of the first.
fn list(alloc: Global, numbers: &[u64]) -> Result<List<u64>, AllocError> {
    let mut list = List::new(alloc);
    for number in numbers {
        list.push(*number)?;
    }
    if !list.is_empty() {
        list.set(0, 4);
    }
    Ok(list)
}

#[test]
fn lists(rt: HostRuntime) -> Result<(), AllocError> {
    assert!(rt; list(rt.alloc(), &[])?.is_empty());
    let list = list(rt.alloc(), &[3, 5])?;
    assert!(rt; list.len() == 2);
    for (at, due) in [(0, Some(&4)), (1, Some(&5)), (2, None)] {
        assert!(rt; list.get(at) == due);
    }
    assert!(rt; list.as_slice() == [4, 5].as_slice());
    let mut again = List::from_vec(list.into_vec());
    for due in [Some(5), Some(4), None] {
        assert!(rt; again.pop() == due);
    }
    Ok(())
}

/// A type that holds itself.
#[derive(Drop)]
enum Tree {
    Leaf(Text),
    Many(List<Tree>),
    One(Boxed<Tree>),
}

#[test]
fn trees(rt: HostRuntime) -> Result<(), AllocError> {
    let alloc = rt.alloc();
    let boxed = Boxed::new(alloc, Broken { at: 7 })?;
    assert!(rt; boxed.get().at == 7);
    assert!(rt; boxed.into_inner() == Broken { at: 7 });
    let mut many = List::new(alloc);
    many.push(Tree::Leaf(Text::from_str(alloc, "leaf")?))?;
    let tree = Tree::One(Boxed::new(alloc, Tree::Many(many))?);
    assert!(rt;
        matches!(&tree, Tree::One(one) if matches!(one.get(), Tree::Many(many) if many.len() == 1))
    );
    Ok(())
}

/// Whether the numbers hold `wanted`, in a step for each number at most.
fn holds<L: Ledger>(numbers: &[u64], wanted: u64, steps: &mut Steps<L>) -> bool
    ensures cost { steps.new ≤ steps.old + length numbers.now }
{
    for &number in numbers {
        steps.tick();
        if number == wanted {
            return true;
        }
    }
    false
}

fn holds_from<L: Ledger>(numbers: &[u64], wanted: u64, blank: Blank) -> bool
    requires name { blank.name ≡ L.name }
    requires parts { blank.parts ≡ L.parts }
    requires some { 0 < blank.parts }
{
    let mut steps = Steps::<L>::open(blank);
    holds(numbers, wanted, &mut steps)
}

#[test]
fn steps(rt: HostRuntime) {
    assert!(rt; holds_from::<Brand>(&[1, 2, 3], 2, Blank::new(1)));
    assert!(rt; !holds_from::<Brand>(&[1, 2, 3], 4, Blank::new(1)));
}
