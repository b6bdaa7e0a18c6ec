//! The order of numbers.
ghost use Rattle.std.specs.Prelude.{◌≡◌, ◌*◌, ◌^◌, ◌<◌, ◌≤◌, IfSome, IfNone};
ghost use Rattle.std.specs.Ordering.{nat_cmp, int_cmp};
ghost use Rattle.vm_decimal.specs.Dec.{IsDecForm};
ghost use Rattle.vm_decimal.specs.Parts.{whole, value};

use crate::dec::Dec;
use crate::level::at_one_level;
use crate::parts::{Parts, Scaled, raised};
use std::cmp::Ordering;

impl PartialEq for Dec {
    ghost use Rattle.std.specs.Ordering.{int_eq};
    ghost use Rattle.std.specs.Cmp.Rules.{comparing};
    ghost use Rattle.std.proofs.Common.{rules};

    ghost eq = { int_eq };

    ghost laws = { Prim.search (comparing, rules) };

    fn eq(&self, other: &Dec) -> bool {
        self.mantissa == other.mantissa && self.shift == other.shift
    }
}

impl Eq for Dec {
    ghost use Rattle.std.specs.Cmp.{int_eq_equiv};

    ghost laws = { int_eq_equiv };
}

impl Ord for Dec {
    ghost use Rattle.std.specs.Ordering.{int_cmp};
    ghost use Rattle.std.specs.Cmp.Rules.{comparing};
    ghost use Rattle.std.proofs.Common.{rules};

    ghost cmp = { int_cmp };

    ghost total = { Prim.search (comparing, rules) };

    ghost matches_partial_cmp = { Prim.search (comparing, rules) };

    ghost matches_eq = { Prim.search (comparing, rules) };

    fn cmp(&self, other: &Dec) -> Ordering {
        match at_one_level(*self, *other) {
            Some(both) => both.one.cmp(&both.two),
            None => compare_parts(self.in_parts(), other.in_parts()),
        }
    }
}

impl PartialOrd for Dec {
    ghost use Rattle.std.specs.Ordering.{int_cmp, as_partial_cmp};
    ghost use Rattle.std.specs.Cmp.{signed_po};

    ghost partial_cmp = { as_partial_cmp int_cmp };

    ghost laws = { signed_po };

    fn partial_cmp(&self, other: &Dec) -> Option<Ordering> {
        Some(self.cmp(other))
    }
}

/// The order of two numbers in normal form.
fn compare_parts(one: Parts, two: Parts) -> Ordering
    requires one { IsDecForm one.negative one.size one.shift }
    requires two { IsDecForm two.negative two.size two.shift }
    ensures { result ≡ int_cmp (value one) (value two) }
{
    let first = scaled(one);
    let second = scaled(two);
    match (one.negative, two.negative) {
        (false, false) => compare(first, second),
        (false, true) => Ordering::Greater,
        (true, false) => Ordering::Less,
        (true, true) => compare(second, first),
    }
}

fn scaled(parts: Parts) -> Scaled
    ensures size { result.size ≡ parts.size }
    ensures shift { result.shift ≡ parts.shift }
{
    Scaled {
        size: parts.size,
        shift: parts.shift,
    }
}

/// The order of two numbers whose sizes have at most 38 digits.
fn compare(one: Scaled, two: Scaled) -> Ordering
    requires one { one.size < 10 ^ 38 }
    requires two { two.size < 10 ^ 38 }
    ensures { result ≡ nat_cmp (whole one) (whole two) }
{
    if one.shift == two.shift {
        return one.size.cmp(&two.size);
    }
    if one.shift < two.shift {
        return compare_raised(two.size, two.shift - one.shift, one.size).reverse();
    }
    compare_raised(one.size, one.shift - two.shift, two.size)
}

/// The order of `size * 10^gap` and another size, both of at most 38 digits.
fn compare_raised(size: u128, gap: u16, other: u128) -> Ordering
    requires one { size < 10 ^ 38 }
    requires other { other < 10 ^ 38 }
    ensures { result ≡ nat_cmp (size * 10 ^ gap) other }
{
    match raised(size, gap) {
        Some(size) => size.cmp(&other),
        None => Ordering::Greater,
    }
}
