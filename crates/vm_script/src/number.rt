//! Numbers of the replay script.

ghost use Rattle.std.specs.Prelude.{◌≡◌};
ghost use Rattle.vm_script.specs.Number.{number_of};
ghost use Rattle.vm_script.specs.inner.Digit.{with_digit};

/// How many digits a number has at most.
const NUMBER_DIGITS: usize = 20;

/// The number that 1 to 20 decimal digits write. Zeros may stand in front. None where a byte is
/// no digit, where there is none or are too many, or where the number is 2^64 or more.
pub fn read_number(digits: &[u8]) -> Option<u64>
    ensures { result ≡ number_of digits.now }
{
    if digits.is_empty() || digits.len() > NUMBER_DIGITS {
        return None;
    }
    let mut number = 0u64;
    for digit in digits {
        number = with_digit(number, *digit)?;
    }
    Some(number)
}

/// The number with one more digit after it.
fn with_digit(number: u64, digit: u8) -> Option<u64>
    ensures { result ≡ with_digit number digit }
{
    if !digit.is_ascii_digit() {
        return None;
    }
    number.checked_mul(10)?.checked_add(u64::from(digit - b'0'))
}
