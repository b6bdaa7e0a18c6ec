//! The fast way to read what nearly all values are: up to 38 digits with at most one point, and an
//! exponent of up to 4 digits.
ghost use Rattle.std.specs.Prelude.{◌≡◌, ◌+◌, ◌*◌, ◌^◌, ◌<◌, ◌≤◌, pos, ◌-ℤ◌, Some, Ok, IfSome, length, take, unsigned_abs};
ghost use Rattle.std.specs.Str.Parse.{digits_value, digits_value_after};
ghost use Rattle.vm_base.specs.Number.{signed};
ghost use Rattle.vm_base.specs.Sample.{sample_of as sample_for};
ghost use Rattle.vm_decimal.specs.inner.Quick.{IsSignedBy, BeginsQuick, QuickValue, SpellsQuick, QuickPower, SignedPower, FewDigits};
ghost use Rattle.vm_decimal.specs.SampleReading.{number_reading, valued};
ghost use Rattle.vm_decimal.specs.Spelled.{IsDigits};

use crate::dec::with_sign;
use crate::parts::power_of_ten;
use vm_base::Sample;

/// 10^18, which is above each size of at most 18 digits.
const SIZES: u128 = 1_000_000_000_000_000_000;

/// The digits at the front of a text as a number, how many of them stand after the point, and the
/// length of what is taken of the text.
#[derive(Clone, Copy)]
struct Mantissa {
    size: u128,
    places: usize,
    len: usize,
}

/// A number of at most 38 digits: `mantissa * 10^exponent`.
#[derive(Clone, Copy)]
pub(crate) struct QuickNumber {
    pub(crate) mantissa: i128,
    pub(crate) exponent: i64,
}

/// The sample of a text that `quick_number` reads and that needs no rounding. Of other texts it
/// gives none.
pub(crate) fn quick_value(text: &[u8]) -> Option<Sample>
    ensures { IfSome result (λ z. valued (number_reading text.now) ≡ Ok (Some z)) }
{
    let number = quick_number(text)?;
    let mantissa = short(number.mantissa)?;
    sample_of(mantissa, number.exponent)
}

/// A mantissa of at most 18 digits. Of a longer one it gives none.
#[inline]
fn short(mantissa: i128) -> Option<i64>
    ensures value { IfSome result (λ m. m ≡ mantissa) }
    ensures few { IfSome result (λ m. unsigned_abs m < 10 ^ 18) }
{
    if mantissa.unsigned_abs() >= SIZES {
        return None;
    }
    Some(mantissa as i64)
}

#[inline]
fn sample_of(mantissa: i64, exponent: i64) -> Option<Sample>
    requires { unsigned_abs exponent < 2 ^ 15 }
    ensures { result ≡ sample_for mantissa exponent }
{
    Sample::of(mantissa, exponent as i16)
}

/// The number of an optional `-`, 1 to 38 digits with at most one point among or beside them, and
/// perhaps an exponent of at most 4 digits. Of other texts it gives none.
#[inline]
pub(crate) fn quick_number(text: &[u8]) -> Option<QuickNumber>
    ensures { IfSome result (λ n. SpellsQuick text.now n) }
{
    let (negative, rest) = behind_minus(text);
    unsigned_number(negative, rest)
}

/// Whether a `-` stands at the front, and what stands after it.
#[inline]
fn behind_minus(text: &[u8]) -> (bool, &[u8])
    ensures { IsSignedBy text.now result.0 result.1.now }
{
    match text {
        [b'-', rest @ ..] => (true, rest),
        _ => (false, text),
    }
}

#[inline(always)]
fn unsigned_number(negative: bool, text: &[u8]) -> Option<QuickNumber>
    ensures { IfSome result (λ n. QuickValue negative text.now n) }
{
    let mantissa = mantissa_in(text)?;
    let power = power_in(&text[mantissa.len..])?;
    Some(QuickNumber {
        mantissa: with_sign(negative, mantissa.size),
        exponent: last_exponent(power, mantissa.places),
    })
}

/// The exponent of a number's last digit, which stands so many places after the point.
fn last_exponent(power: i16, places: usize) -> i64
    requires few { unsigned_abs power < 10 ^ 4 }
    requires near { places ≤ 38 }
    ensures { result ≡ power -ℤ pos places }
{
    i64::from(power) - places as i64
}

/// Digits with at most one point, at the front of a text.
fn mantissa_in(text: &[u8]) -> Option<Mantissa>
    ensures { IfSome result (λ m. BeginsQuick text.now m.size m.places m.len) }
{
    let (whole, end) = digits_behind(0, &text[..text.len().min(38)]);
    if end < text.len() && text[end] == b'.' {
        let rest = &text[end + 1..];
        let (size, places) = digits_behind(whole, &rest[..rest.len().min(38 - end)]);
        if end + places < 1 {
            return None;
        }
        return Some(Mantissa {
            size,
            places,
            len: end + 1 + places,
        });
    }
    if end < 1 {
        return None;
    }
    Some(Mantissa {
        size: whole,
        places: 0,
        len: end,
    })
}

/// The exponent that a text is, 0 where it is empty.
fn power_in(text: &[u8]) -> Option<i16>
    ensures { IfSome result (λ power. QuickPower text.now power) }
{
    match text {
        [] => Some(0),
        [b'e', rest @ ..] => signed_power(rest),
        [b'E', rest @ ..] => signed_power(rest),
        _ => None,
    }
}

fn signed_power(text: &[u8]) -> Option<i16>
    ensures { IfSome result (λ power. SignedPower text.now power) }
{
    match text {
        [b'-', digits @ ..] => Some(power_of(true, few_digits(digits)?)),
        [b'+', digits @ ..] => Some(power_of(false, few_digits(digits)?)),
        _ => Some(power_of(false, few_digits(text)?)),
    }
}

fn power_of(negative: bool, size: u64) -> i16
    requires { size < 10 ^ 4 }
    ensures { result ≡ signed negative size }
{
    if negative {
        -(size as i16)
    } else {
        size as i16
    }
}

/// The number of 1 to 4 digits.
fn few_digits(text: &[u8]) -> Option<u64>
    ensures { IfSome result (λ size. FewDigits text.now size) }
{
    if text.is_empty() || text.len() > 4 {
        return None;
    }
    let (size, count) = leading_digits(text);
    if count < text.len() {
        return None;
    }
    Some(size)
}

/// What the digits at the front of a text write after those of `before`, and how many these are.
/// They are gathered in 64 bits, 19 at a time.
#[inline(always)]
fn digits_behind(before: u128, text: &[u8]) -> (u128, usize)
    requires room { (before + 1) * 10 ^ length text.now ≤ 10 ^ 38 }
    requires few { length text.now ≤ 38 }
    ensures within { result.1 ≤ length text.now }
    ensures digits { IsDigits (take result.1 text.now) }
    ensures value { result.0 ≡ digits_value_after 10 before (take result.1 text.now) }
    ensures small { result.0 < (before + 1) * 10 ^ result.1 }
{
    let (first, count) = leading_digits(&text[..text.len().min(19)]);
    let size = joined(before, first, count);
    if count < 19 {
        return (size, count);
    }
    let (all, more) = last_digits(size, &text[19..]);
    (all, 19 + more)
}

/// The same of digits that are at most 19, out of the way of the numbers with fewer in all.
#[inline(never)]
fn last_digits(before: u128, text: &[u8]) -> (u128, usize)
    requires room { (before + 1) * 10 ^ length text.now ≤ 10 ^ 38 }
    requires few { length text.now ≤ 19 }
    ensures within { result.1 ≤ length text.now }
    ensures digits { IsDigits (take result.1 text.now) }
    ensures value { result.0 ≡ digits_value_after 10 before (take result.1 text.now) }
    ensures small { result.0 < (before + 1) * 10 ^ result.1 }
{
    let (digits, count) = leading_digits(text);
    (joined(before, digits, count), count)
}

/// A number with so many digits after it.
#[inline]
fn joined(before: u128, digits: u64, count: usize) -> u128
    requires room { (before + 1) * 10 ^ count ≤ 10 ^ 38 }
    requires small { digits < 10 ^ count }
    requires few { count ≤ 19 }
    ensures { result ≡ before * 10 ^ count + digits }
{
    before * u128::from(power_of_ten(count as u64)) + u128::from(digits)
}

/// What the digits at the front of a text write, and how many these are.
#[inline]
fn leading_digits(text: &[u8]) -> (u64, usize)
    requires few { length text.now ≤ 19 }
    ensures within { result.1 ≤ length text.now }
    ensures digits { IsDigits (take result.1 text.now) }
    ensures value { result.0 ≡ digits_value 10 (take result.1 text.now) }
    ensures small { result.0 < 10 ^ result.1 }
{
    let mut value = 0;
    let mut count = 0;
    'front: while count < text.len() && text[count].is_ascii_digit() {
        value = value * 10 + (text[count] - b'0') as u64;
        count += 1;
    }
    (value, count)
}
