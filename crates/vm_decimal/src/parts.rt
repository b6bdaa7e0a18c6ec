//! A number by its sign, its size and its shift.
ghost use Rattle.std.specs.Prelude.{◌≡◌, ◌*◌, ◌%◌, ◌^◌, ◌<◌, ◌≤◌, IfSome, IfNone};
ghost use Rattle.vm_decimal.specs.Arithmetic.{differ as signs_differ};

/// `10^0` to `10^19`.
const POWERS: [u64; 20] = [
    1,
    10,
    100,
    1_000,
    10_000,
    100_000,
    1_000_000,
    10_000_000,
    100_000_000,
    1_000_000_000,
    10_000_000_000,
    100_000_000_000,
    1_000_000_000_000,
    10_000_000_000_000,
    100_000_000_000_000,
    1_000_000_000_000_000,
    10_000_000_000_000_000,
    100_000_000_000_000_000,
    1_000_000_000_000_000_000,
    10_000_000_000_000_000_000,
];

/// `size * 10^shift`.
#[derive(Clone, Copy)]
pub(crate) struct Scaled {
    pub(crate) size: u128,
    pub(crate) shift: u16,
}

/// `size * 10^(shift - 1000)`, or that below zero.
#[derive(Clone, Copy)]
pub(crate) struct Parts {
    pub(crate) negative: bool,
    pub(crate) size: u128,
    pub(crate) shift: u16,
}

/// The size without the zeros at its end, and how many these are.
#[inline]
pub(crate) fn without_noughts(size: u128) -> (u128, u16)
    requires { 0 < size }
    ensures whole { size ≡ result.0 * 10 ^ result.1 }
    ensures last { result.0 % 10 ≡ 0 → ⊥ }
    ensures few { result.1 < 39 }
{
    if size > u128::from(u64::MAX) {
        return wide_without_noughts(size);
    }
    let (size, noughts) = small_without_noughts(size as u64);
    (u128::from(size), noughts)
}

#[inline]
fn small_without_noughts(size: u64) -> (u64, u16)
    requires { 0 < size }
    ensures whole { size ≡ result.0 * 10 ^ result.1 }
    ensures last { result.0 % 10 ≡ 0 → ⊥ }
    ensures few { result.1 < 39 }
{
    let mut size = size;
    let mut noughts = 0;
    'noughts: while size % 10 == 0 {
        size /= 10;
        noughts += 1;
    }
    (size, noughts)
}

fn wide_without_noughts(size: u128) -> (u128, u16)
    requires { 0 < size }
    ensures whole { size ≡ result.0 * 10 ^ result.1 }
    ensures last { result.0 % 10 ≡ 0 → ⊥ }
    ensures few { result.1 < 39 }
{
    let mut size = size;
    let mut noughts = 0;
    'noughts: while size % 2 == 0 && size % 10 == 0 {
        size /= 10;
        noughts += 1;
    }
    (size, noughts)
}

/// `10^exponent`.
#[inline]
pub(crate) fn power_of_ten(exponent: u64) -> u64
    requires { exponent ≤ 19 }
    ensures { result ≡ 10 ^ exponent }
{
    POWERS[exponent as usize]
}

/// The same of an exponent up to 38.
#[inline]
pub(crate) fn wide_power_of_ten(exponent: u16) -> u128
    requires { exponent ≤ 38 }
    ensures { result ≡ 10 ^ exponent }
{
    let exponent = u64::from(exponent);
    if exponent < 20 {
        return u128::from(power_of_ten(exponent));
    }
    u128::from(power_of_ten(19)) * u128::from(power_of_ten(exponent - 19))
}

/// `size * 10^gap`, none where that is above 128 bits.
#[inline]
pub(crate) fn raised(size: u128, gap: u16) -> Option<u128>
    ensures value { IfSome result (λ r. r ≡ size * 10 ^ gap) }
    ensures wide { IfNone result (2 ^ 128 ≤ size * 10 ^ gap) }
{
    if size == 0 {
        return Some(0);
    }
    if gap > 38 {
        return None;
    }
    let power = wide_power_of_ten(gap);
    if gap < 20 && size <= u128::from(u64::MAX) {
        return Some(size * power);
    }
    size.checked_mul(power)
}

/// Whether two signs differ.
#[inline]
pub(crate) fn differ(one: bool, two: bool) -> bool
    ensures { result ≡ signs_differ one two }
{
    if one { !two } else { two }
}
