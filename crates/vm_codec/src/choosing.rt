//! Which coding a column gets.
ghost use Rattle.std.specs.Prelude.{◌≡◌, ◌+◌, ◌*◌, ◌≤◌, ◌∷◌, ◌⊎◌, length, All, ◌-ℤ◌, nat_le, if◌then◌else◌};
ghost use Rattle.std.specs.List.{list_all};
ghost use Rattle.std.specs.Ordering.{int_eq};
ghost use Rattle.vm_codec.specs.Coding.{IsInBounds, chosen, spelling, are_equal as all_equal, differences};
ghost use Rattle.vm_codec.specs.declared.coding.Coding.TheVariants.{NearestDelta2, NearestDelta};

use crate::Coding;
use crate::integer::number_len;
use crate::writing::{lean_between, number_between};
use vm_base::limits::MAX_BLOCK_SAMPLES;

/// The coding of a column of these values: the one that needs no integer, or one, and else the
/// shorter one, which is `NearestDelta2` where both are as long.
///
/// It wants 1 to 8,192 values, each strictly between -10^18 and 10^18.
pub fn choose(values: &[i64]) -> Coding
    requires some { 1 ≤ length values.now }
    requires few { length values.now ≤ MAX_BLOCK_SAMPLES }
    requires bounds { All IsInBounds values.now }
    ensures { result ≡ chosen values.now }
{
    if are_equal(values) {
        Coding::Const
    } else if have_one_difference(values) {
        Coding::DeltaConst
    } else {
        shorter(values)
    }
}

/// Of the codings with an integer for each value but the first, the shorter one.
fn shorter(values: &[i64]) -> Coding
    requires some { 1 ≤ length values.now }
    requires few { length values.now ≤ MAX_BLOCK_SAMPLES }
    requires bounds { All IsInBounds values.now }
    ensures { result
        ≡ (if nat_le (length (spelling NearestDelta2 values.now))
        (length (spelling NearestDelta values.now))
        then NearestDelta2 else NearestDelta) }
{
    let second = spelling_len(Coding::NearestDelta2, values);
    let first = spelling_len(Coding::NearestDelta, values);
    if second <= first {
        Coding::NearestDelta2
    } else {
        Coding::NearestDelta
    }
}

/// Whether all values are the first one.
fn are_equal(values: &[i64]) -> bool
    ensures { result ≡ all_equal values.now }
{
    match values.split_first() {
        None => true,
        Some((first, more)) => all_are(*first, more),
    }
}

fn all_are(value: i64, values: &[i64]) -> bool
    ensures { result ≡ list_all (int_eq value) values.now }
{
    values.iter().all(|other| value == *other)
}

/// Whether each value lies as far above the one before it as the second above the first.
fn have_one_difference(values: &[i64]) -> bool
    requires bounds { All IsInBounds values.now }
    ensures { result ≡ all_equal (differences values.now) }
{
    match values.split_first() {
        None => true,
        Some((first, more)) => have_first_difference(*first, more),
    }
}

/// The same, of a first value and those after it.
fn have_first_difference(first: i64, values: &[i64]) -> bool
    requires first { IsInBounds first }
    requires bounds { All IsInBounds values.now }
    ensures { result ≡ all_equal (differences (first ∷ values.now)) }
{
    match values.split_first() {
        None => true,
        Some((second, more)) => go_on_by(*second, *second - first, more),
    }
}

/// Whether each of the values lies as far above the one before it as `step`, and the first of them
/// above `last`.
fn go_on_by(last: i64, step: i64, values: &[i64]) -> bool
    requires last { IsInBounds last }
    requires bounds { All IsInBounds values.now }
    ensures { result ≡ list_all (int_eq step) (differences (last ∷ values.now)) }
{
    let mut last = last;
    for value in values {
        if !is_step(last, *value, step) {
            return false;
        }
        last = *value;
    }
    true
}

fn is_step(last: i64, next: i64, step: i64) -> bool
    requires last { IsInBounds last }
    requires next { IsInBounds next }
    ensures { result ≡ int_eq step (next -ℤ last) }
{
    step == next - last
}

/// How many bytes a column takes in a coding with an integer for each value but the first.
fn spelling_len(coding: Coding, values: &[i64]) -> usize
    requires some { 1 ≤ length values.now }
    requires few { length values.now ≤ MAX_BLOCK_SAMPLES }
    requires bounds { All IsInBounds values.now }
    requires coding { (coding ≡ NearestDelta2) ⊎ (coding ≡ NearestDelta) }
    ensures { result ≡ length (spelling coding values.now) }
{
    let mut value = values[0];
    let mut lean = 0;
    let mut len = 0;
    for place in 1..values.len() {
        let next = values[place];
        len += number_len(number_between(value, lean, next));
        lean = lean_between(coding, value, next);
        value = next;
    }
    len
}
