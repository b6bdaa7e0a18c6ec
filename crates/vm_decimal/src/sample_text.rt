//! What the text of a sample's value says.
ghost use Rattle.std.specs.Prelude.{◌≡◌, ◌↔◌, ℕ, ℤ};
ghost use Rattle.vm_base.specs.FirstWrong.{FirstWrong};
ghost use Rattle.vm_decimal.specs.SampleText.{IsSampleText, SaysValue, IsTooWide};
ghost use Rattle.vm_decimal.specs.SampleReading.{sample_reading, number_reading, valued, value_reading, no_number_reading};
ghost use Rattle.vm_decimal.specs.Words.{IsNoNumber, no_numbers};
ghost use Rattle.vm_decimal.specs.WordPlaces.{wrong_among};

use crate::quick::quick_value;
use crate::reader::{scan, value};
use crate::words::words_wrong;
use vm_base::Sample;

/// What a text says of a sample's value.
#[derive(Clone, Copy, Debug, PartialEq, Eq)]
pub enum SampleText {
    /// The number that it writes, rounded to its first 18 digits, half to even.
    Value(Sample),
    /// That there is no number: `nan`, or `inf` or `infinity` with an optional sign, in any case.
    NoNumber,
}

/// Why a text says nothing of a value.
#[derive(Clone, Copy, Debug, PartialEq, Eq)]
pub enum NumFault {
    /// The text is no number, and none of the texts that stand for no number.
    NotANumber {
        /// The place of the first byte with which the text so far begins none of these, or the
        /// text's length where it ends too early. Places count bytes from 0.
        at: u64,
    },
    /// The number's exponent in normal form, once it is rounded, leaves -350 to 350.
    TooWide,
}

/// What the text of a sample's value says.
///
/// A number is an optional `+` or `-`, digits with an optional point among or beside them, and
/// optionally `e` or `E`, an optional sign and digits, each part as long as it may be. It is
/// rounded to its first 18 digits, half to even. Zero is zero whatever its exponent. The time grows
/// with the text's length alone, and no memory is taken.
pub fn read_sample(text: &[u8]) -> Result<SampleText, NumFault>
    // What the text is where each answer comes, and nowhere else.
    ensures value { (z : ℤ) → (result ≡ Ok (SampleText.Value z)) ↔ SaysValue text.now z }
    ensures no_number { (result ≡ Ok SampleText.NoNumber) ↔ IsNoNumber text.now }
    ensures too_wide { (result ≡ Err NumFault.TooWide) ↔ IsTooWide text.now }
    ensures not_a_number { (at : ℕ) → (result ≡ Err (NumFault.NotANumber at))
        ↔ FirstWrong IsSampleText text.now at }

    // The same as one equation.
    ensures reading { result ≡ sample_reading text.now }
{
    answer(text, number_value(text))
}

/// The sample of a text that is a number, none where that is out of range, or the place at which it
/// is none.
fn number_value(text: &[u8]) -> Result<Option<Sample>, usize>
    ensures { result ≡ valued (number_reading text.now) }
{
    if let Some(sample) = quick_value(text) {
        return Ok(Some(sample));
    }
    let reader = scan(text)?;
    Ok(value(&reader))
}

fn answer(text: &[u8], number: Result<Option<Sample>, usize>) -> Result<SampleText, NumFault>
    ensures { result ≡ value_reading text.now number }
{
    match number {
        Ok(Some(sample)) => Ok(SampleText::Value(sample)),
        Ok(None) => Err(NumFault::TooWide),
        Err(at) => no_number(at, words_wrong(text)),
    }
}

/// The answer to a text that is a number up to `at`, by where it leaves the texts for no number.
fn no_number(at: usize, far: Option<usize>) -> Result<SampleText, NumFault>
    ensures { result ≡ no_number_reading at far }
{
    match far {
        None => Ok(SampleText::NoNumber),
        Some(far) => Err(NumFault::NotANumber {
            at: at.max(far) as u64,
        }),
    }
}
