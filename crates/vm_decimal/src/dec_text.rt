//! What the text of a number says.
ghost use Rattle.std.specs.Prelude.{◌≡◌, ◌↔◌, ℕ, ℤ, ◌+◌, ◌<◌, ◌^◌, pos, ◌+ℤ◌, ◌-ℤ◌, unsigned_abs, Ok, Err, IfSome, IsTrue};
ghost use Rattle.vm_decimal.specs.inner.Exact.{IsCounted};
ghost use Rattle.vm_base.specs.FirstWrong.{FirstWrong};
ghost use Rattle.vm_base.specs.Number.{signed};
ghost use Rattle.vm_decimal.specs.Dec.{dec_of, is_dec};
ghost use Rattle.vm_decimal.specs.DecText.{SaysNumber, IsBeyond, dec_value, dec_reading, or_too_wide};
ghost use Rattle.vm_decimal.specs.NumberMachine.{State, spelled};
ghost use Rattle.vm_decimal.specs.inner.Reader.{Stands};
ghost use Rattle.vm_decimal.specs.NumberText.{number_text};
ghost use Rattle.vm_decimal.specs.SampleReading.{number_reading};
ghost use Rattle.vm_decimal.specs.Spelled.{Spelled, IsAnyNumber};

use crate::dec::{Dec, placed};
use crate::exact::exact_digits;
use crate::quick::{QuickNumber, quick_number};
use crate::reader::{Reader, last_exponent, scan};
use crate::sample_text::NumFault;

/// The number that a text writes, exactly.
///
/// A number is written as `read_sample` has it, but no digit is rounded, and the texts for no
/// number are none. `TooWide` says that the number has more than 38 digits or an exponent outside
/// -1000 to 1000 in normal form. The time grows with the text's length alone, and no memory is
/// taken.
pub fn read(text: &[u8]) -> Result<Dec, NumFault>
    // What the text is where each answer comes, and nowhere else.
    ensures value { (z : ℤ) → (result ≡ Ok z) ↔ SaysNumber text.now z }
    ensures too_wide { (result ≡ Err NumFault.TooWide) ↔ IsBeyond text.now }
    ensures not_a_number { (at : ℕ)
        → (result ≡ Err (NumFault.NotANumber at)) ↔ FirstWrong IsAnyNumber text.now at }

    // What was printed is read as the same number.
    ensures printed { (z : ℤ) → IsTrue (is_dec z) → text.now ≡ number_text z → result ≡ Ok z }

    // All of it as one equation.
    ensures reading { result ≡ dec_reading text.now }
{
    reading(text)
}

fn reading(text: &[u8]) -> Result<Dec, NumFault>
    ensures { result ≡ dec_reading text.now }
{
    if let Some(number) = quick_dec(text) {
        return Ok(number);
    }
    match scan(text) {
        Ok(reader) => found(number_read(&reader, text)),
        Err(at) => Err(NumFault::NotANumber { at: at as u64 }),
    }
}

fn found(number: Option<Dec>) -> Result<Dec, NumFault>
    ensures { result ≡ or_too_wide number }
{
    match number {
        Some(number) => Ok(number),
        None => Err(NumFault::TooWide),
    }
}

/// The number of a text of at most 38 digits. Of other texts it gives none.
#[inline]
fn quick_dec(text: &[u8]) -> Option<Dec>
    ensures { IfSome result (λ z. dec_reading text.now ≡ Ok z) }
{
    let number = quick_number(text)?;
    dec_of_quick(number)
}

#[inline]
fn dec_of_quick(number: QuickNumber) -> Option<Dec>
    requires { unsigned_abs number.exponent < 2 ^ 15 }
    ensures { result ≡ dec_of number.mantissa number.exponent }
{
    let size = number.mantissa.unsigned_abs();
    placed(number.mantissa < 0, size, number.exponent as i32 + 1000)
}

/// The number that was read, none where it is out of range.
fn number_read(reader: &Reader, text: &[u8]) -> Option<Dec>
    requires few { reader.now.digits.kept < 10 ^ 19 }
    requires far { reader.now.power < 10 ^ 32 }
    ensures { (s : State) → Stands reader.now s → number_reading text.now ≡ Ok (spelled s)
        → result ≡ dec_value (spelled s) }
{
    let Some((size, noughts)) = digits_of(reader, text) else {
        return None;
    };
    dec_at(reader.negative, size, exponent_behind(reader, noughts))
}

/// The digits as `size * 10^noughts`, none where more than 38 stand up to the last that isn't 0.
fn digits_of(reader: &Reader, text: &[u8]) -> Option<(u128, u64)>
    requires { reader.now.digits.kept < 10 ^ 19 }
    ensures value { (s : State) → Stands reader.now s → number_reading text.now ≡ Ok (spelled s)
        → IsCounted result s.digits }
    ensures few { IfSome result (λ counted. counted.0 < 10 ^ 38) }
    ensures short { IfSome result (λ counted. counted.1 < 2 ^ 64) }
{
    let digits = reader.digits;
    if !digits.sticky {
        return Some((u128::from(digits.kept), digits.dropped));
    }
    let exact = exact_digits(text);
    if exact.wide {
        return None;
    }
    Some((exact.size, exact.noughts))
}

/// The exponent of the last digit before so many zeros.
fn exponent_behind(reader: &Reader, noughts: u64) -> i128
    requires { reader.now.power < 10 ^ 32 }
    ensures value { result
        ≡ (signed reader.now.down reader.now.power -ℤ pos reader.now.places) +ℤ pos noughts }
    ensures near { reader.now.places < 2 ^ 64 }
{
    last_exponent(reader.down, reader.power, reader.places) + i128::from(noughts)
}

/// `size * 10^exponent`, or that below zero, none where it is out of range.
fn dec_at(negative: bool, size: u128, exponent: i128) -> Option<Dec>
    requires { size < 10 ^ 38 }
    ensures { result ≡ dec_of (signed negative size) exponent }
{
    if size == 0 {
        return Some(Dec::ZERO);
    }
    if exponent < -10_000 {
        return None;
    }
    if exponent > 10_000 {
        return None;
    }
    placed(negative, size, exponent as i32 + 1000)
}
