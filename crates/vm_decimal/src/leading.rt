//! The first digits of a number, as many as its rounding needs.
ghost use Rattle.std.specs.Prelude.{◌≡◌, ℕ, ◌+◌, ◌*◌, ◌<◌, ◌≤◌, ◌^◌};
ghost use Rattle.vm_decimal.specs.inner.Leading.{Leads, IsRounding, tenth_of};

/// 10^18, which is above each size of at most 18 digits.
const SIZES: u64 = 1_000_000_000_000_000_000;

/// The digits of a number of any length: the first 19 from the first that isn't 0, how many stand
/// after these, and whether one of those isn't 0.
#[derive(Clone, Copy)]
pub(crate) struct Leading {
    pub(crate) kept: u64,
    pub(crate) dropped: u64,
    pub(crate) sticky: bool,
}

/// The digits, with one more at the end.
#[inline]
pub(crate) fn with_digit(digits: Leading, digit: u8) -> Leading
    requires digit { digit < 10 }
    requires room { digits.dropped + 1 < 2 ^ 64 }
    ensures value { (n : ℕ) → Leads digits n → Leads result (n * 10 + digit) }
    ensures room { result.dropped ≤ digits.dropped + 1 }
{
    if digits.kept < SIZES {
        return Leading {
            kept: digits.kept * 10 + u64::from(digit),
            dropped: digits.dropped,
            sticky: digits.sticky,
        };
    }
    Leading {
        kept: digits.kept,
        dropped: digits.dropped + 1,
        sticky: digits.sticky || digit != 0,
    }
}

/// The number rounded to its first 18 digits, half to even, and how many digits stood after those.
pub(crate) fn rounding(digits: Leading) -> (u64, u64)
    requires few { digits.kept < 10 ^ 19 }
    requires room { digits.dropped + 1 < 2 ^ 64 }
    ensures value { (n : ℕ) → Leads digits n → IsRounding n result.0 result.1 }
    ensures few { result.0 ≤ 10 ^ 18 }
{
    if digits.kept < SIZES {
        return (digits.kept, 0);
    }
    (tenth(digits.kept, digits.sticky), digits.dropped + 1)
}

/// A tenth of the number, rounded half to even, where `sticky` says that a bit more than the number
/// is meant.
fn tenth(kept: u64, sticky: bool) -> u64
    requires few { kept < 10 ^ 19 }
    ensures value { result ≡ tenth_of kept sticky }
    ensures few { result ≤ 10 ^ 18 }
{
    let whole = kept / 10;
    let last = kept % 10;
    let up = last > 5 || (last == 5 && (sticky || whole % 2 == 1));
    if up { whole + 1 } else { whole }
}
