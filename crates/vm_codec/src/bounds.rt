//! The bounds that each value of a column keeps.
ghost use Rattle.std.specs.Prelude.{◌↔◌, IsTrue, All, ◌≡◌, IfSome, ◌+ℤ◌};
ghost use Rattle.vm_codec.specs.Coding.{in_bounds as is_inside, IsInBounds};
ghost use Rattle.vm_codec.specs.inner.Reading.{bounded};

/// 10^18: the values lie strictly between this and the same below zero.
const BOUND: i64 = 1_000_000_000_000_000_000;

/// Whether all of these values keep the bounds of a column: each lies strictly between -10^18 and
/// 10^18.
pub fn are_in_bounds(values: &[i64]) -> bool
    ensures { IsTrue result ↔ All IsInBounds values.now }
{
    values.iter().all(|value| in_bounds(*value))
}

/// Whether a value keeps the bounds.
pub(crate) fn in_bounds(value: i64) -> bool
    ensures { result ≡ is_inside value }
{
    -BOUND < value && value < BOUND
}

/// The sum, where it keeps the bounds.
pub(crate) fn bounded_sum(one: i64, other: i64) -> Option<i64>
    ensures value { result ≡ bounded (one +ℤ other) }
    ensures bound { IfSome result IsInBounds }
{
    let sum = one.checked_add(other)?;
    if in_bounds(sum) { Some(sum) } else { None }
}
