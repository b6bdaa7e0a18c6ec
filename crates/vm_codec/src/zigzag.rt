//! Whole numbers of both signs as numbers without one.
ghost use Rattle.std.specs.Prelude.{◌≡◌};
ghost use Rattle.vm_codec.specs.Integer.{zigzag as zigzag_of, unzigzag as unzigzag_of};

/// Even for numbers from 0 up, odd for those below, so that small numbers stay small.
pub(crate) fn zigzag(value: i64) -> u64
    ensures { result ≡ zigzag_of value }
{
    if value < 0 {
        2 * (-(value + 1)) as u64 + 1
    } else {
        2 * value as u64
    }
}

/// The number whose zigzag this is.
pub(crate) fn unzigzag(number: u64) -> i64
    ensures { result ≡ unzigzag_of number }
{
    let half = (number / 2) as i64;
    if number % 2 == 0 { half } else { -half - 1 }
}
