ghost use Rattle.std.specs.Prelude.{◌≡◌, ◌%◌, ◌<◌, ◌≤◌, ◌^◌, Some, pos, negsuc, ◌+ℤ◌, ◌-ℤ◌, ◌≤ℤ◌, ◌++◌, unsigned_abs, IsTrue, OnOk, OnErr};
ghost use Rattle.std.specs.Result.{result_ok};
ghost use Rattle.vm_base.specs.Number.{signed, number};
ghost use Rattle.vm_base.specs.Sample.{mantissa as mantissa_of, exponent};
ghost use Rattle.vm_decimal.specs.Dec.{IsDecForm, is_dec, dec_of, in_range, as_sample};
ghost use Rattle.vm_decimal.specs.Parts.{placed as number_placed, value, IsBare};
ghost use Rattle.vm_decimal.specs.NumberText.{number_text};

use crate::number_text::number_text;
use crate::parts::{Parts, without_noughts};
use crate::reader::mantissa;
use std::alloc::AllocError;
use std::marker::Model;
use vm_base::Sample;

/// 10^38, which is above each size.
pub(crate) const SIZES: u128 = 100_000_000_000_000_000_000_000_000_000_000_000_000;

/// 10^18, which is above each size of a sample.
const SAMPLE_SIZES: u128 = 1_000_000_000_000_000_000;

/// The shift of a number whose last digit counts ones.
const ONES: i32 = 1000;

/// The greatest shift.
const GREATEST: i32 = 2000;

/// A number that has more than 38 digits, or an exponent outside -1000 to 1000.
#[derive(Clone, Copy, Debug, PartialEq, Eq)]
pub struct Range;

/// A decimal number of at most 38 digits whose exponent of ten lies from -1000 to 1000 in normal
/// form.
///
/// In normal form the digits don't end with 0, and zero is 0 with the exponent 0 and no sign. So
/// each number has one form.
#[derive(Clone, Copy, Debug)]
pub struct Dec {
    /// The digits as a number, with the sign.
    pub(crate) mantissa: i128,
    /// 1000 above the exponent of ten of the last digit. In 64 bits, so that the fields leave a
    /// hole of 8 bytes: to copy one of 13 bytes takes longer than a sum.
    pub(crate) shift: u64,
}

impl Model for Dec {
    ghost use Rattle.std.specs.Prelude.{ℤ, unsigned_abs};
    ghost use Rattle.std.specs.Int.{is_negative};
    ghost use Rattle.vm_base.specs.Number.{signed, number, form_of};
    ghost use Rattle.vm_base.specs.Form.{form_of-number};
    ghost use Rattle.vm_base.proofs.NumberLaws.{signed-parts};
    ghost use Rattle.vm_decimal.specs.Dec.{IsDecForm};

    ghost Value = { ℤ };

    ghost view = { λ d. number (is_negative d.mantissa) (unsigned_abs d.mantissa) d.shift };

    ghost invariant = { λ d. IsDecForm (is_negative d.mantissa) (unsigned_abs d.mantissa) d.shift };

    ghost inverse = { λ z. record {
      mantissa = signed (form_of z).negative (form_of z).size;
      shift = (form_of z).shift;
    } };

    ghost inverse_ok = { λ d h.
        Prim.rw (
          form_of-number (is_negative d.mantissa) (unsigned_abs d.mantissa) d.shift h.short
              h.plus h.here h.high,
          signed-parts d.mantissa,
        ) };
}

impl Dec {
    /// 0.
    pub const ZERO: Dec = Dec {
        mantissa: 0,
        shift: 1000,
    };

    /// `m * 10^e`, none exactly where that number has more than 38 digits or an exponent outside
    /// -1000 to 1000 in normal form.
    pub fn of(m: i128, e: i16) -> Option<Dec>
        ensures { result ≡ dec_of m e }
    {
        placed(m < 0, m.unsigned_abs(), i32::from(e) + ONES)
    }

    /// The mantissa and the exponent of ten in normal form: the mantissa doesn't end with 0, and
    /// zero is 0 with the exponent 0.
    pub fn parts(self) -> (i128, i16)
        ensures mantissa { result.0 ≡ mantissa_of self }
        ensures exponent { result.1 ≡ exponent self }
        ensures few { unsigned_abs result.0 < 10 ^ 38 }
        ensures low { negsuc 999 ≤ℤ result.1 }
        ensures high { result.1 ≤ℤ pos 1000 }
        ensures whole { dec_of result.0 result.1 ≡ Some self }
        ensures dec { IsTrue (is_dec self) }
    {
        (self.mantissa, exponent_of(self.shift as u16))
    }

    /// The sign, the size and the shift.
    #[inline]
    pub(crate) fn in_parts(self) -> Parts
        ensures value { value result ≡ self }
        ensures form { IsDecForm result.negative result.size result.shift }
        ensures bare { IsBare result.size result.shift }
    {
        Parts {
            negative: self.mantissa < 0,
            size: self.mantissa.unsigned_abs(),
            shift: self.shift as u16,
        }
    }

    /// The number of a sample.
    pub fn of_sample(sample: Sample) -> Dec
        ensures { result ≡ sample }
    {
        Dec {
            mantissa: i128::from(sample.m()),
            shift: shift_of(sample.e()),
        }
    }

    /// The sample of this number, none exactly where it has more than 18 digits or an exponent
    /// outside -350 to 350 in normal form.
    pub fn to_sample(self) -> Option<Sample>
        ensures { result ≡ as_sample self }
    {
        let parts = self.in_parts();
        if parts.size >= SAMPLE_SIZES {
            return None;
        }
        sample_at(parts.negative, parts.size as u64, parts.shift)
    }

    /// Appends the number's text to `out`, which stays as it was where memory runs out.
    ///
    /// The text is plain, as `-0.5`, where the first digit counts 10^-7 to 10^20, else it is one as
    /// `1.5e-8` or `1e+21`. A fraction has no zeros at its end.
    pub fn print(self, out: &mut Vec<u8>) -> Result<(), AllocError>
        ensures ok { OnOk result (out.new.items ≡ out.old.items ++ number_text self) }
        ensures err { OnErr result (out.new.items ≡ out.old.items) }
    {
        let parts = self.in_parts();
        out.extend_from_slice(number_text(parts.negative, parts.size, parts.shift).as_slice())
    }
}

/// The number, or that it is out of range.
#[inline]
pub(crate) fn or_range(found: Option<Dec>) -> Result<Dec, Range>
    ensures { result_ok result ≡ found }
{
    match found {
        Some(found) => Ok(found),
        None => Err(Range),
    }
}

/// `size * 10^(shift - 1000)` or that below zero, none where it is out of range.
pub(crate) fn placed(negative: bool, size: u128, shift: i32) -> Option<Dec>
    requires near { unsigned_abs shift < 10 ^ 6 }
    ensures { result ≡ dec_of (signed negative size) (shift -ℤ pos 1000) }
{
    if size == 0 {
        return Some(Dec::ZERO);
    }
    let (size, noughts) = without_noughts(size);
    in_form(negative, size, shift_behind(shift, noughts))
}

/// The same of a shift that isn't below 0.
pub(crate) fn placed_up(negative: bool, size: u128, shift: u16) -> Option<Dec>
    ensures { result ≡ in_range (number negative size shift) }
{
    placed(negative, size, i32::from(shift))
}

/// The same of a size that doesn't end with 0.
pub(crate) fn in_form(negative: bool, size: u128, shift: i32) -> Option<Dec>
    requires { size % 10 ≡ 0 → ⊥ }
    ensures { result ≡ number_placed negative size shift }
{
    if size >= SIZES || shift < 0 || shift > GREATEST {
        return None;
    }
    Some(of_parts(negative, size, shift as u16))
}

/// The number of these parts, which are in normal form.
#[inline]
pub(crate) fn of_parts(negative: bool, size: u128, shift: u16) -> Dec
    requires { IsDecForm negative size shift }
    ensures { result ≡ number negative size shift }
{
    Dec {
        mantissa: with_sign(negative, size),
        shift: u64::from(shift),
    }
}

/// The shift after so many zeros.
fn shift_behind(shift: i32, noughts: u16) -> i32
    requires near { unsigned_abs shift < 10 ^ 6 }
    ensures { result ≡ shift +ℤ pos noughts }
{
    shift + i32::from(noughts)
}

/// The shift of a number whose last digit counts `10^e`.
fn shift_of(e: i16) -> u64
    requires low { negsuc 349 ≤ℤ e }
    requires high { e ≤ℤ pos 350 }
    ensures { pos result ≡ e +ℤ pos 1000 }
{
    (e + 1000) as u64
}

#[inline]
pub(crate) fn with_sign(negative: bool, size: u128) -> i128
    requires { size < 10 ^ 38 }
    ensures { result ≡ signed negative size }
{
    if negative {
        -(size as i128)
    } else {
        size as i128
    }
}

/// The exponent of ten of a number's last digit.
fn exponent_of(shift: u16) -> i16
    requires { shift ≤ 2000 }
    ensures { result ≡ pos shift -ℤ pos 1000 }
{
    shift as i16 - ONES as i16
}

/// The sample `size * 10^(shift - 1000)`, or that below zero.
fn sample_at(negative: bool, size: u64, shift: u16) -> Option<Sample>
    requires few { size < 10 ^ 18 }
    requires high { shift ≤ 2000 }
    ensures { result ≡ as_sample (number negative size shift) }
{
    Sample::of(mantissa(negative, size), exponent_of(shift))
}
