//! Two numbers as multiples of one power of ten, where their mantissas fit 64 bits and their
//! exponents lie near each other: sums and comparisons of these take neither a division nor a loop.
ghost use Rattle.std.specs.Prelude.{◌≡◌, ℕ, ◌^◌, ◌<◌, ◌≤◌, pos, ◌*ℤ◌, unsigned_abs, IfSome};
ghost use Rattle.vm_decimal.specs.Parts.{IsLeveled};

use crate::dec::Dec;
use crate::parts::power_of_ten;

/// The greatest power of ten that a mantissa is raised by.
const MOST: u64 = 18;

/// The numbers `one * 10^(shift - 1000)` and `two * 10^(shift - 1000)`.
#[derive(Clone, Copy)]
pub(crate) struct Leveled {
    pub(crate) one: i128,
    pub(crate) two: i128,
    pub(crate) shift: u64,
}

/// The two numbers at the lesser of their shifts. Of wide or distant numbers it gives none.
#[inline]
pub(crate) fn at_one_level(one: Dec, two: Dec) -> Option<Leveled>
    ensures { IfSome result (λ both. IsLeveled one two both) }
{
    let first = small(one.mantissa)?;
    let second = small(two.mantissa)?;
    let shift = one.shift.min(two.shift);
    let gap = one.shift - shift;
    let other_gap = two.shift - shift;
    if gap > MOST || other_gap > MOST {
        return None;
    }
    Some(Leveled {
        one: raised(first, gap),
        two: raised(second, other_gap),
        shift,
    })
}

/// A mantissa in 64 bits. Of a wider one it gives none.
#[inline]
fn small(mantissa: i128) -> Option<i64>
    ensures value { IfSome result (λ m. m ≡ mantissa) }
    ensures few { IfSome result (λ m. unsigned_abs m ≤ 2 ^ 63) }
{
    i64::try_from(mantissa).ok()
}

/// `mantissa * 10^gap`.
#[inline]
fn raised(mantissa: i64, gap: u64) -> i128
    requires { gap ≤ 18 }
    ensures { result ≡ mantissa *ℤ pos (10 ^ gap) }
{
    i128::from(mantissa) * i128::from(power_of_ten(gap))
}
