//! The exponent that values share, and whether each keeps its 18 digits at it.
ghost use Rattle.std.specs.Prelude.{◌≡◌, ◌∷◌, [], ◌+◌, ◌-◌, ◌*◌, ◌^◌, ◌<◌, ◌≤◌, nat_lt, if◌then◌else◌, Some, None};
ghost use Rattle.vm_block.specs.inner.Reading.{IsShared, raise_of, join_of};

use crate::samples::shift_of;
use vm_base::Sample;
use vm_base::limits::SAMPLE_DIGITS;

/// 10^18, which is above each size of at most 18 digits.
const SIZES: u64 = 1_000_000_000_000_000_000;

/// Of some values: their least exponent, and how great a mantissa is at it.
#[derive(Clone, Copy)]
pub(crate) struct Shared {
    /// The least exponent plus 1000, where not all values are zero.
    shift: u16,
    /// The greatest size of a mantissa, below 10^18. It is 0 where all values are zero.
    greatest: u64,
}

impl Shared {
    /// Of one value.
    pub(crate) fn of(value: Sample) -> Shared
        ensures { IsShared (value ∷ []) result }
    {
        Shared {
            shift: shift_of(value),
            greatest: value.m().unsigned_abs(),
        }
    }

    /// Of these values and others, none where a mantissa would have more than 18 digits.
    pub(crate) fn join(self, other: Shared) -> Option<Shared>
        ensures { result ≡ join_of self other }
    {
        if other.greatest == 0 {
            return Some(self);
        }
        if self.greatest == 0 {
            return Some(other);
        }
        if self.shift < other.shift {
            self.raise(other)
        } else {
            other.raise(self)
        }
    }

    /// Of these values and others of the same exponent or a greater one.
    fn raise(self, other: Shared) -> Option<Shared>
        requires order { self.shift ≤ other.shift }
        requires some { 0 < other.greatest }
        ensures { result ≡ raise_of self other }
    {
        let raised = raised(other.greatest, other.shift - self.shift)?;
        Some(Shared {
            shift: self.shift,
            greatest: raised.max(self.greatest),
        })
    }
}

/// A size with zeros after it, none where that has more than 18 digits.
fn raised(size: u64, noughts: u16) -> Option<u64>
    requires { 0 < size }
    ensures { result
        ≡ (if nat_lt (size * 10 ^ noughts) (10 ^ 18) then Some (size * 10 ^ noughts) else None) }
{
    let noughts = u32::from(noughts);
    if noughts >= SAMPLE_DIGITS {
        return None;
    }
    let raised = size.checked_mul(10u64.pow(noughts))?;
    if raised < SIZES { Some(raised) } else { None }
}
