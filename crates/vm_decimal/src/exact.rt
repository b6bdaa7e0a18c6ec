//! The digits of a number, exactly.
ghost use Rattle.std.specs.Prelude.{◌≡◌, ℕ, ◌+◌, ◌*◌, ◌<◌, ◌≤◌, ◌^◌, Ok, length};
ghost use Rattle.vm_decimal.specs.inner.Exact.{IsExact};
ghost use Rattle.vm_decimal.specs.NumberMachine.{State, taken};
ghost use Rattle.vm_decimal.specs.inner.Reader.{IsSmall};
ghost use Rattle.vm_decimal.specs.SampleReading.{number_reading};
ghost use Rattle.vm_decimal.specs.Spelled.{Spelled};

use crate::number_machine::{Phase, Symbol, next, symbol_of};

/// 10^37, below which a size has room for one digit more.
const ROOM: u128 = 10_000_000_000_000_000_000_000_000_000_000_000_000;

/// The digits of a number of any length: `size * 10^noughts`, or that they are more than 38 up to
/// the last that isn't 0.
#[derive(Clone, Copy)]
pub(crate) struct Exact {
    pub(crate) size: u128,
    pub(crate) noughts: u64,
    pub(crate) wide: bool,
}

/// The digits of the number that the text is.
pub(crate) fn exact_digits(text: &[u8]) -> Exact
    ensures value { (spelled : Spelled) → number_reading text.now ≡ Ok spelled
        → IsExact result spelled.digits }
    ensures few { result.size < 10 ^ 38 }
    ensures short { result.noughts ≤ length text.now }
{
    let mut phase = Phase::Start;
    let mut digits = Exact {
        size: 0,
        noughts: 0,
        wide: false,
    };
    for byte in text {
        let symbol = symbol_of(*byte);
        let Some(behind) = next(phase, symbol) else {
            return digits;
        };
        phase = behind;
        digits = with_symbol(digits, phase, symbol);
    }
    digits
}

/// The digits after a symbol that leads to this phase.
#[inline]
fn with_symbol(digits: Exact, phase: Phase, symbol: Symbol) -> Exact
    requires small { IsSmall symbol }
    requires room { digits.noughts + 1 < 2 ^ 64 }
    requires few { digits.size < 10 ^ 38 }
    ensures value { (s : State) → IsExact digits s.digits
        → IsExact result (taken s phase symbol).digits }
    ensures phase { (s : State) → phase ≡ (taken s phase symbol).phase }
    ensures few { result.size < 10 ^ 38 }
    ensures short { result.noughts ≤ digits.noughts + 1 }
{
    match (phase, symbol) {
        (Phase::Whole, Symbol::Digit(digit)) => with_digit(digits, digit),
        (Phase::Fraction, Symbol::Digit(digit)) => with_digit(digits, digit),
        _ => digits,
    }
}

#[inline]
fn with_digit(digits: Exact, digit: u8) -> Exact
    requires digit { digit < 10 }
    requires room { digits.noughts + 1 < 2 ^ 64 }
    requires few { digits.size < 10 ^ 38 }
    ensures value { (n : ℕ) → IsExact digits n → IsExact result (n * 10 + digit) }
    ensures few { result.size < 10 ^ 38 }
    ensures short { result.noughts ≤ digits.noughts + 1 }
{
    if digits.noughts == 0 && digits.size < ROOM {
        return Exact {
            size: digits.size * 10 + u128::from(digit),
            noughts: 0,
            wide: digits.wide,
        };
    }
    if digit == 0 {
        return Exact {
            size: digits.size,
            noughts: digits.noughts + 1,
            wide: digits.wide,
        };
    }
    Exact {
        size: digits.size,
        noughts: digits.noughts,
        wide: true,
    }
}
