//! Remainders, quotients in whole billionths, and multiples of a unit.
ghost use Rattle.std.specs.Prelude.{◌≡◌, ℕ, ◌+◌, ◌-◌, ◌*◌, ◌/◌, ◌%◌, ◌^◌, ◌<◌, ◌≤◌, ◌<ℤ◌, ◌*ℤ◌, pos, negsuc, int_rem, ℤ, Option, Some, Ok, IfSome, IfNone, option_map};
ghost use Rattle.std.specs.Result.{result_ok};
ghost use Rattle.vm_base.specs.Rounding.{nearest as nearest_to};
ghost use Rattle.vm_decimal.specs.Arithmetic.{remainder, quotient9, nearest_multiple, if_scaled, nearest_quotient};
ghost use Rattle.vm_decimal.specs.ArithmeticLaws.{IsRest, IsQuotient9};
ghost use Rattle.vm_decimal.specs.Dec.{IsDecForm, in_range, dec_of};
ghost use Rattle.vm_decimal.specs.inner.Division.{IsAligned};
ghost use Rattle.vm_decimal.specs.Parts.{value, whole};

use crate::dec::{Dec, Range, SIZES, or_range, placed, placed_up};
use crate::parts::{Parts, Scaled, differ, raised};

/// How many zeros are put after a dividend for a quotient in whole billionths.
const BILLIONTHS: u16 = 9;

/// The shift of a number whose last digit counts billionths.
const BILLIONTH_SHIFT: i32 = 991;

/// A dividend and a divisor whose last digits count the same.
#[derive(Clone, Copy)]
pub(crate) struct Aligned {
    pub(crate) dividend: u128,
    /// None where it passes 128 bits, so that it is above twice the dividend.
    pub(crate) divisor: Option<u128>,
    pub(crate) shift: u16,
}

impl Dec {
    /// What is left of this number once multiples of the other are taken off, exact and with the
    /// sign of this one. None comes exactly where the other is zero.
    ///
    /// `Range` comes exactly where the other isn't zero and the remainder is out of range, or this
    /// number has more than 38 digits once it is written down to the other's last digit.
    pub fn rem(self, other: Dec) -> Result<Option<Dec>, Range>
        ensures value { result_ok result ≡ remainder self other }
        ensures rest { (r : ℤ) → result ≡ Ok (Some r) → IsRest self other r }
    {
        let divisor = other.in_parts();
        if divisor.size == 0 {
            return Ok(None);
        }
        some_or_range(rest(self.in_parts(), divisor))
    }

    /// The quotient, rounded to whole billionths, to the even one of two that are as near. None
    /// comes exactly where the other is zero.
    ///
    /// `Range` comes exactly where the other isn't zero and the rounded quotient is out of range,
    /// or this number has more than 38 digits once it is written with nine digits more, and down to
    /// the other's last digit.
    pub fn quot9(self, other: Dec) -> Result<Option<Dec>, Range>
        ensures value { result_ok result ≡ quotient9 self other }
        ensures nearest { (z : ℤ) → result ≡ Ok (Some z) → IsQuotient9 self other z }
    {
        let divisor = other.in_parts();
        if divisor.size == 0 {
            return Ok(None);
        }
        some_or_range(billionths(self.in_parts(), divisor))
    }

    /// The multiple of the unit that is nearest to this number, the even multiple of two that are
    /// as near. The unit is above zero.
    ///
    /// `Range` comes exactly where that multiple is out of range, or this number has more than 38
    /// digits once it is written down to the unit's last digit.
    pub fn round_to(self, unit: Dec) -> Result<Dec, Range>
        requires above { pos 0 <ℤ unit }
        ensures { result_ok result ≡ nearest_multiple self unit }
    {
        or_range(multiple(self.in_parts(), unit.in_parts()))
    }
}

fn some_or_range(found: Option<Dec>) -> Result<Option<Dec>, Range>
    ensures { result_ok result ≡ option_map Some found }
{
    match found {
        Some(found) => Ok(Some(found)),
        None => Err(Range),
    }
}

fn rest(one: Parts, two: Parts) -> Option<Dec>
    requires one { IsDecForm one.negative one.size one.shift }
    requires two { IsDecForm two.negative two.size two.shift }
    requires some { 0 < two.size }
    ensures { result
        ≡ if_scaled 0 (value one) (value two) (in_range (int_rem (value one) (value two))) }
{
    let Some(both) = align(scaled(one, 0), scaled(two, 0)) else {
        return None;
    };
    placed_up(one.negative, remaining(both), both.shift)
}

fn billionths(one: Parts, two: Parts) -> Option<Dec>
    requires one { IsDecForm one.negative one.size one.shift }
    requires two { IsDecForm two.negative two.size two.shift }
    requires some { 0 < two.size }
    ensures { result ≡ if_scaled 9 (value one) (value two)
        (dec_of (nearest_quotient (value one *ℤ pos (10 ^ 9)) (value two)) (negsuc 8)) }
{
    let Some(both) = align(scaled(one, BILLIONTHS), scaled(two, 0)) else {
        return None;
    };
    let negative = differ(one.negative, two.negative);
    placed(negative, quotient(both), BILLIONTH_SHIFT)
}

fn multiple(one: Parts, two: Parts) -> Option<Dec>
    requires one { IsDecForm one.negative one.size one.shift }
    requires two { IsDecForm two.negative two.size two.shift }
    requires some { 0 < two.size }
    ensures { result ≡ if_scaled 0 (value one) (value two)
        (in_range (nearest_quotient (value one) (value two) *ℤ value two)) }
{
    let Some(both) = align(scaled(one, 0), scaled(two, 0)) else {
        return None;
    };
    placed_up(one.negative, nearest_multiple_of(both), both.shift)
}

/// The size with so many zeros more.
fn scaled(parts: Parts, noughts: u16) -> Scaled
    requires high { parts.shift ≤ 2000 }
    requires few { noughts < 10 }
    ensures size { result.size ≡ parts.size }
    ensures shift { result.shift ≡ parts.shift + noughts }
{
    Scaled {
        size: parts.size,
        shift: parts.shift + noughts,
    }
}

/// The dividend and the divisor at the lesser of their shifts, none where the dividend has more
/// than 38 digits there.
fn align(dividend: Scaled, divisor: Scaled) -> Option<Aligned>
    requires few { dividend.size < 10 ^ 38 }
    requires some { 0 < divisor.size }
    ensures aligned { IfSome result (λ both. IsAligned dividend divisor both) }
    ensures wide { IfNone result (10 ^ 38 ≤ dividend.size * 10 ^ (dividend.shift - divisor.shift)) }
{
    if dividend.shift < divisor.shift {
        return Some(Aligned {
            dividend: dividend.size,
            divisor: raised(divisor.size, divisor.shift - dividend.shift),
            shift: dividend.shift,
        });
    }
    let Some(size) = raised(dividend.size, dividend.shift - divisor.shift) else {
        return None;
    };
    if size >= SIZES {
        return None;
    }
    Some(Aligned {
        dividend: size,
        divisor: Some(divisor.size),
        shift: divisor.shift,
    })
}

/// What is left of the dividend.
fn remaining(both: Aligned) -> u128
    requires { (v : ℕ) → both.divisor ≡ Some v → 0 < v }
    ensures { (n d : Scaled) → IsAligned n d both → result * 10 ^ both.shift ≡ whole n % whole d }
{
    match both.divisor {
        Some(divisor) => both.dividend % divisor,
        None => both.dividend,
    }
}

/// The quotient, rounded to a whole number.
fn quotient(both: Aligned) -> u128
    requires few { both.dividend < 10 ^ 38 }
    requires some { (v : ℕ) → both.divisor ≡ Some v → 0 < v }
    ensures { (n d : Scaled) → IsAligned n d both → result ≡ nearest_to (whole n) (whole d) }
{
    match both.divisor {
        Some(divisor) => nearest(both.dividend, divisor),
        None => 0,
    }
}

/// The multiple of the divisor that is nearest to the dividend.
fn nearest_multiple_of(both: Aligned) -> u128
    requires few { both.dividend < 10 ^ 38 }
    requires some { (v : ℕ) → both.divisor ≡ Some v → 0 < v }
    ensures { (n d : Scaled) → IsAligned n d both
        → result * 10 ^ both.shift ≡ nearest_to (whole n) (whole d) * whole d }
{
    match both.divisor {
        Some(divisor) => nearest(both.dividend, divisor) * divisor,
        None => 0,
    }
}

/// The quotient, rounded to the nearest whole number, and to the even one of two that are as near.
fn nearest(dividend: u128, divisor: u128) -> u128
    requires few { dividend < 10 ^ 38 }
    requires some { 0 < divisor }
    ensures { result ≡ nearest_to dividend divisor }
{
    let whole = dividend / divisor;
    let rest = dividend % divisor;
    let missing = divisor - rest;
    if rest < missing {
        return whole;
    }
    if rest > missing {
        return whole + 1;
    }
    if whole % 2 == 0 { whole } else { whole + 1 }
}
