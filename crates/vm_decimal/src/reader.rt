//! Reads a number one byte at a time, whatever its length.
ghost use Rattle.std.specs.Prelude.{◌≡◌, ℕ, ◌+◌, ◌*◌, ◌<◌, ◌≤◌, ◌^◌, Ok, Err, IfOk, IfErr, length, pos, ◌≤ℤ◌, ◌-ℤ◌};
ghost use Rattle.vm_base.specs.Number.{signed};
ghost use Rattle.vm_decimal.specs.NumberMachine.{State, taken, step as step_of, spelled};
ghost use Rattle.vm_decimal.specs.inner.Reader.{Stands, Counts, IsSmall, IsCapped, Steps, Reached};
ghost use Rattle.vm_decimal.specs.Rounded.{sample_value, sample_of_digits};
ghost use Rattle.vm_decimal.specs.SampleReading.{number_reading};

use crate::leading::{Leading, rounding, with_digit};
use crate::number_machine::{Phase, Symbol, may_end, next, symbol_of};
use vm_base::Sample;

/// 10^30, from which on an exponent is not counted exactly: no text is as long.
const FAR: u128 = 1_000_000_000_000_000_000_000_000_000_000;

/// What was read of a number.
#[derive(Clone, Copy)]
pub(crate) struct Reader {
    pub(crate) phase: Phase,
    pub(crate) negative: bool,
    pub(crate) digits: Leading,
    pub(crate) places: u64,
    pub(crate) down: bool,
    pub(crate) power: u128,
}

/// Reads a whole text, or says where it stops being a number.
pub(crate) fn scan(text: &[u8]) -> Result<Reader, usize>
    ensures read { IfOk result (λ reader. Reached text.now reader) }
    ensures few { IfOk result (λ reader. Counts reader (length text.now)) }
    ensures wrong { IfErr result (λ at. number_reading text.now ≡ Err at) }
{
    let mut reader = Reader {
        phase: Phase::Start,
        negative: false,
        digits: Leading {
            kept: 0,
            dropped: 0,
            sticky: false,
        },
        places: 0,
        down: false,
        power: 0,
    };
    for (at, byte) in text.iter().enumerate() {
        if !step(&mut reader, *byte) {
            return Err(at);
        }
    }
    if may_end(reader.phase) {
        return Ok(reader);
    }
    Err(text.len())
}

/// Reads one byte more, or says that no number goes on with it.
#[inline]
fn step(reader: &mut Reader, byte: u8) -> bool
    requires room { reader.old.places + 1 < 2 ^ 64 }
    requires digits { reader.old.digits.dropped + 1 < 2 ^ 64 }
    ensures steps { (s : State) → Stands reader.old s → Steps result (step_of s byte) reader.new }
    ensures counts { (n : ℕ) → Counts reader.old n → Counts reader.new (n + 1) }
{
    let symbol = symbol_of(byte);
    match next(reader.phase, symbol) {
        Some(phase) => {
            take(reader, phase, symbol);
            true
        }
        None => false,
    }
}

/// Takes a symbol that leads to this phase.
#[inline]
fn take(reader: &mut Reader, phase: Phase, symbol: Symbol)
    requires small { IsSmall symbol }
    requires room { reader.old.places + 1 < 2 ^ 64 }
    requires digits { reader.old.digits.dropped + 1 < 2 ^ 64 }
    ensures stands { (s : State) → Stands reader.old s → Stands reader.new (taken s phase symbol) }
    ensures counts { (n : ℕ) → Counts reader.old n → Counts reader.new (n + 1) }
{
    reader.phase = phase;
    match (phase, symbol) {
        (Phase::Whole, Symbol::Digit(digit)) => {
            reader.digits = with_digit(reader.digits, digit);
        }
        (Phase::Fraction, Symbol::Digit(digit)) => {
            reader.digits = with_digit(reader.digits, digit);
            reader.places += 1;
        }
        (Phase::Power, Symbol::Digit(digit)) => {
            reader.power = with_power_digit(reader.power, digit);
        }
        (Phase::Signed, Symbol::Sign(negative)) => reader.negative = negative,
        (Phase::MarkSigned, Symbol::Sign(down)) => reader.down = down,
        _ => {}
    }
}

/// An exponent with one digit more.
#[inline]
fn with_power_digit(power: u128, digit: u8) -> u128
    requires { digit < 10 }
    ensures { (n : ℕ) → IsCapped power n → IsCapped result (n * 10 + digit) }
{
    if power < FAR {
        return power * 10 + u128::from(digit);
    }
    power
}

/// The sample that a number is rounded to, none where its exponent is out of range.
pub(crate) fn value(reader: &Reader) -> Option<Sample>
    requires few { reader.now.digits.kept < 10 ^ 19 }
    requires far { reader.now.power < 10 ^ 32 }
    requires room { reader.now.digits.dropped + 1 < 2 ^ 64 }
    ensures { (s : State) → Stands reader.now s → result ≡ sample_value (spelled s) }
{
    let (size, more) = rounding(reader.digits);
    let last = last_exponent(reader.down, reader.power, reader.places);
    sample_at(reader.negative, size, last + i128::from(more))
}

/// The exponent of ten of a number's last digit.
pub(crate) fn last_exponent(down: bool, power: u128, places: u64) -> i128
    requires { power < 10 ^ 32 }
    ensures { result ≡ signed down power -ℤ pos places }
{
    let power = if down {
        -(power as i128)
    } else {
        power as i128
    };
    power - i128::from(places)
}

/// `size * 10^exponent`, or that below zero, none where its exponent is out of range.
fn sample_at(negative: bool, size: u64, exponent: i128) -> Option<Sample>
    requires { size ≤ 10 ^ 18 }
    ensures { result
        ≡ sample_of_digits (record { negative = negative; digits = size; exponent = exponent }) }
{
    if size == 0 {
        return Some(Sample::ZERO);
    }
    if exponent < -1000 || exponent > 1000 {
        return None;
    }
    Sample::of(mantissa(negative, size), exponent as i16)
}

pub(crate) fn mantissa(negative: bool, size: u64) -> i64
    requires { size ≤ 10 ^ 18 }
    ensures { result ≡ signed negative size }
{
    if negative {
        -(size as i64)
    } else {
        size as i64
    }
}
