//! Sizes of numbers with zeros after them.
ghost use Rattle.std.specs.Prelude.{◌≡◌, ◌*◌, ◌%◌, ◌^◌, ◌<◌};
ghost use Rattle.std.specs.Ordering.{nat_cmp};

use crate::limits::SAMPLE_DIGITS;
use std::cmp::Ordering;

/// `size * 10^shift`.
#[derive(Clone, Copy)]
pub(crate) struct Scaled {
    pub(crate) size: u64,
    pub(crate) shift: u16,
}

/// The size without the zeros at its end, and how many these are.
pub(crate) fn without_noughts(size: u64) -> (u64, u16)
    requires { 0 < size }
    ensures whole { size ≡ result.0 * 10 ^ result.1 }
    ensures last { result.0 % 10 ≡ 0 → ⊥ }
{
    let mut size = size;
    let mut noughts = 0;
    'noughts: while size % 10 == 0 {
        size /= 10;
        noughts += 1;
    }
    (size, noughts)
}

/// The order of two numbers whose sizes have at most 18 digits.
pub(crate) fn compare(one: Scaled, two: Scaled) -> Ordering
    requires one { one.size < 10 ^ 18 }
    requires two { two.size < 10 ^ 18 }
    ensures { result ≡ nat_cmp (one.size * 10 ^ one.shift) (two.size * 10 ^ two.shift) }
{
    if one.shift == two.shift {
        return one.size.cmp(&two.size);
    }
    if one.shift < two.shift {
        return compare_raised(two.size, two.shift - one.shift, one.size).reverse();
    }
    compare_raised(one.size, one.shift - two.shift, two.size)
}

/// The order of `size * 10^gap` and another size, both of at most 18 digits.
fn compare_raised(size: u64, gap: u16, other: u64) -> Ordering
    requires one { size < 10 ^ 18 }
    requires other { other < 10 ^ 18 }
    ensures { result ≡ nat_cmp (size * 10 ^ gap) other }
{
    if size == 0 {
        return 0.cmp(&other);
    }
    let gap = u32::from(gap);
    if gap >= SAMPLE_DIGITS {
        return Ordering::Greater;
    }
    let raised = u128::from(size) * u128::from(10u64.pow(gap));
    raised.cmp(&u128::from(other))
}
