//! Sums and differences.
ghost use Rattle.std.specs.Prelude.{◌≡◌, ◌+◌, ◌*◌, ◌^◌, ◌<◌, ◌+ℤ◌, ◌-ℤ◌, ◌*ℤ◌, neg_ℤ, pos};
ghost use Rattle.std.specs.Result.{result_ok};
ghost use Rattle.vm_base.specs.Number.{signed};
ghost use Rattle.vm_decimal.specs.Dec.{in_range};
ghost use Rattle.vm_decimal.specs.Parts.{IsBare, value};

use crate::dec::{Dec, Range, SIZES, in_form, or_range, placed_up};
use crate::level::at_one_level;
use crate::parts::{Parts, raised};

/// A size from which on a number of at most 38 digits doesn't bring another back below 10^38.
const FAR: u128 = 2 * SIZES;

impl Dec {
    /// The sum, exact. `Range` comes exactly where it is out of range.
    pub fn add(self, other: Dec) -> Result<Dec, Range>
        ensures { result_ok result ≡ in_range (self +ℤ other) }
    {
        or_range(sum(self, other))
    }

    /// The difference, exact. `Range` comes exactly where it is out of range.
    pub fn sub(self, other: Dec) -> Result<Dec, Range>
        ensures { result_ok result ≡ in_range (self -ℤ other) }
    {
        or_range(sum(self, other.opposite()))
    }

    /// The number with the other sign.
    #[inline]
    fn opposite(self) -> Dec
        ensures { result ≡ neg_ℤ self }
    {
        Dec {
            mantissa: -self.mantissa,
            shift: self.shift,
        }
    }
}

/// The sum, none where it is out of range.
#[inline]
fn sum(one: Dec, two: Dec) -> Option<Dec>
    ensures { result ≡ in_range (one +ℤ two) }
{
    match at_one_level(one, two) {
        Some(both) => placed_at(both.one + both.two, both.shift as u16),
        None => sum_of_parts(one.in_parts(), two.in_parts()),
    }
}

/// `m * 10^(shift - 1000)`, none where it is out of range.
#[inline]
fn placed_at(m: i128, shift: u16) -> Option<Dec>
    ensures { result ≡ in_range (m *ℤ pos (10 ^ shift)) }
{
    placed_up(m < 0, m.unsigned_abs(), shift)
}

fn sum_of_parts(one: Parts, two: Parts) -> Option<Dec>
    requires one { IsBare one.size one.shift }
    requires two { IsBare two.size two.shift }
    ensures { result ≡ in_range (value one +ℤ value two) }
{
    if one.shift == two.shift {
        return level_sum(one, two);
    }
    if one.shift < two.shift {
        return uneven_sum(two, one);
    }
    uneven_sum(one, two)
}

/// The sum of two numbers whose last digits count the same.
fn level_sum(one: Parts, two: Parts) -> Option<Dec>
    requires one { IsBare one.size one.shift }
    requires two { IsBare two.size two.shift }
    requires level { one.shift ≡ two.shift }
    ensures { result ≡ in_range (value one +ℤ value two) }
{
    let (negative, size) = signed_sum(one.negative, one.size, two.negative, two.size);
    placed_up(negative, size, one.shift)
}

/// The sum of two numbers of which the first one's last digit counts more. It ends with the last
/// digit of the second, so no zero has to go.
fn uneven_sum(high: Parts, low: Parts) -> Option<Dec>
    requires high { IsBare high.size high.shift }
    requires low { IsBare low.size low.shift }
    requires above { low.shift < high.shift }
    ensures { result ≡ in_range (value high +ℤ value low) }
{
    if low.size == 0 {
        return placed_up(high.negative, high.size, high.shift);
    }
    let Some(size) = raised(high.size, high.shift - low.shift) else {
        return None;
    };
    if size >= FAR {
        return None;
    }
    let (negative, size) = signed_sum(high.negative, size, low.negative, low.size);
    in_form(negative, size, i32::from(low.shift))
}

/// The sign and the size of the sum of two numbers with these.
#[inline]
fn signed_sum(one: bool, first: u128, two: bool, second: u128) -> (bool, u128)
    requires { first + second < 2 ^ 128 }
    ensures { signed result.0 result.1 ≡ signed one first +ℤ signed two second }
{
    if one == two {
        return (one, first + second);
    }
    if first < second {
        return (two, second - first);
    }
    (one, first - second)
}
