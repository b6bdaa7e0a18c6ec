//! Products.
ghost use Rattle.std.specs.Prelude.{◌≡◌, ◌+◌, ◌*◌, ◌%◌, ◌^◌, ◌==◌, ◌<◌, pos, negsuc, ◌+ℤ◌};
ghost use Rattle.std.specs.Result.{result_ok};
ghost use Rattle.vm_decimal.specs.Arithmetic.{product as product_of};
ghost use Rattle.vm_decimal.specs.Parts.{IsBare, value};

use crate::dec::{Dec, Range, in_form, or_range};
use crate::parts::{Parts, differ};

/// Two factors without the twos of the first and the fives of the second that make tens together,
/// and how many these are.
#[derive(Clone, Copy)]
struct Factors {
    twos: u128,
    fives: u128,
    tens: u16,
}

impl Dec {
    /// The product, exact. `Range` comes exactly where it is out of range.
    pub fn mul(self, other: Dec) -> Result<Dec, Range>
        ensures { result_ok result ≡ product_of self other }
    {
        or_range(product(self.in_parts(), other.in_parts()))
    }
}

/// The product, none where it is out of range. The tens that its factors make go first, so that
/// what is left ends with another digit than 0, and is out of range where it passes 128 bits.
fn product(one: Parts, two: Parts) -> Option<Dec>
    requires one { IsBare one.size one.shift }
    requires two { IsBare two.size two.shift }
    ensures { result ≡ product_of (value one) (value two) }
{
    if one.size == 0 {
        return Some(Dec::ZERO);
    }
    if two.size == 0 {
        return Some(Dec::ZERO);
    }
    let first = cancelled(one.size, two.size);
    let then = cancelled(first.fives, first.twos);
    let Some(size) = then.twos.checked_mul(then.fives) else {
        return None;
    };
    let shift = product_shift(one.shift, two.shift, first.tens + then.tens);
    in_form(differ(one.negative, two.negative), size, shift)
}

/// The shift of a product of which so many tens were taken out.
fn product_shift(one: u16, two: u16, tens: u16) -> i32
    ensures { result ≡ negsuc 1999 +ℤ pos (1000 + (tens + (one + two))) }
{
    i32::from(one) + i32::from(two) + i32::from(tens) - 1000
}

/// The first factor without its twos and the second without its fives, as long as both have one.
#[inline]
fn cancelled(twos: u128, fives: u128) -> Factors
    requires twos { 0 < twos }
    requires fives { 0 < fives }
    ensures twos { twos ≡ result.twos * 2 ^ result.tens }
    ensures fives { fives ≡ result.fives * 5 ^ result.tens }
    ensures done { result.twos % 2 ≡ 0 → result.fives % 5 ≡ 0 → ⊥ }
    ensures few { result.tens < 128 }
    ensures some { 0 < result.twos }
    ensures some_too { 0 < result.fives }
{
    let mut twos = twos;
    let mut fives = fives;
    let mut tens = 0;
    'tens: while twos % 2 == 0 && is_five_fold(fives) {
        twos /= 2;
        fives /= 5;
        tens += 1;
    }
    Factors { twos, fives, tens }
}

/// Whether the size is a multiple of 5.
#[inline]
fn is_five_fold(size: u128) -> bool
    ensures { result ≡ (size % 5 == 0) }
{
    if size > u128::from(u64::MAX) {
        return size % 5 == 0;
    }
    (size as u64) % 5 == 0
}
