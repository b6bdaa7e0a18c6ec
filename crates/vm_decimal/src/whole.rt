//! The whole numbers beside a number.
ghost use Rattle.std.specs.Prelude.{◌≡◌, ◌*◌, ◌/◌, ◌%◌, ◌^◌, ◌<◌};
ghost use Rattle.vm_base.specs.Number.{signed};
ghost use Rattle.vm_decimal.specs.Arithmetic.{floor_of, ceil_of, ones};
ghost use Rattle.vm_decimal.specs.inner.Division.{cut as cut_of};

use crate::dec::{Dec, of_parts};
use crate::parts::{Parts, wide_power_of_ten, without_noughts};

/// The shift of a number whose last digit counts ones.
const ONES: u16 = 1000;

impl Dec {
    /// The greatest whole number that isn't above this one.
    pub fn floor(self) -> Dec
        ensures { result ≡ floor_of self }
    {
        let parts = self.in_parts();
        if parts.shift >= ONES {
            return self;
        }
        whole_part(parts, parts.negative)
    }

    /// The least whole number that isn't below this one.
    pub fn ceil(self) -> Dec
        ensures { result ≡ ceil_of self }
    {
        let parts = self.in_parts();
        if parts.shift >= ONES {
            return self;
        }
        whole_part(parts, !parts.negative)
    }
}

/// The number without what stands after its point, or with the next whole number away from zero in
/// place of that.
fn whole_part(parts: Parts, away: bool) -> Dec
    requires few { parts.size < 10 ^ 38 }
    requires low { parts.shift < 1000 }
    ensures { result
        ≡ signed parts.negative (cut_of away (parts.size * 10 ^ parts.shift) ones * ones) }
{
    whole_number(parts.negative, cut(parts.size, ONES - parts.shift, away))
}

fn whole_number(negative: bool, size: u128) -> Dec
    requires { size < 10 ^ 38 }
    ensures { result ≡ signed negative (size * ones) }
{
    if size == 0 {
        return Dec::ZERO;
    }
    let (size, noughts) = without_noughts(size);
    of_parts(negative, size, ONES + noughts)
}

/// The size without its last digits, and one more where the cut goes away from zero and they aren't
/// all 0.
fn cut(size: u128, places: u16, away: bool) -> u128
    requires few { size < 10 ^ 38 }
    requires some { 0 < places }
    ensures value { result ≡ cut_of away size (10 ^ places) }
    ensures few { result < 10 ^ 38 }
{
    let (whole, rest) = parted(size, places);
    if rest == 0 {
        return whole;
    }
    if away { whole + 1 } else { whole }
}

/// The digits before so many last ones, and the last ones.
fn parted(size: u128, places: u16) -> (u128, u128)
    requires few { size < 10 ^ 38 }
    requires some { 0 < places }
    ensures whole { result.0 ≡ size / 10 ^ places }
    ensures rest { result.1 ≡ size % 10 ^ places }
    ensures few { result.0 < 10 ^ 37 }
{
    if places > 38 {
        return (0, size);
    }
    let unit = wide_power_of_ten(places);
    (size / unit, size % unit)
}
