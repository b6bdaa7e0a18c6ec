ghost use Rattle.std.specs.Prelude.{◌≡◌, ◌+◌, ◌%◌, ◌<◌, ◌^◌, ◌≤ℤ◌, ◌+ℤ◌, ◌&&◌, pos, negsuc, nat_lt, int_le, unsigned_abs, IsTrue, if◌then◌else◌};
ghost use Rattle.vm_base.specs.Number.{number};
ghost use Rattle.vm_base.specs.Sample.{sample_of, is_sample, mantissa, exponent};

use crate::limits::{MAX_SAMPLE_EXPONENT, MIN_SAMPLE_EXPONENT};
use crate::sizes::{Scaled, compare, without_noughts};
use std::cmp::Ordering;
use std::marker::Model;

/// 10^18, which is above each size of at most 18 digits.
const SIZES: u64 = 1_000_000_000_000_000_000;

/// The shift of a number whose last digit counts ones.
const ONES: i32 = 1000;

/// The value of a sample: a decimal number of at most 18 digits whose exponent of ten lies from
/// -350 to 350 in normal form. A contract sees it as the whole number of units of 10^-1000.
///
/// In normal form the mantissa doesn't end with 0, and zero is 0 with the exponent 0. So each
/// number has one form, and equal numbers are equal.
#[derive(Clone, Copy, Debug)]
pub struct Sample {
    // the number is `size * 10^(shift - 1000)` or that below zero
    size: u64,
    shift: u16,
    negative: bool,
}

impl Model for Sample {
    ghost use Rattle.std.specs.Prelude.{ℤ};
    ghost use Rattle.vm_base.specs.Number.{number, form_of};
    ghost use Rattle.vm_base.specs.Form.{form_of-sample};
    ghost use Rattle.vm_base.specs.Sample.{IsSampleForm};

    ghost Value = { ℤ };

    ghost view = { λ s. number s.negative s.size s.shift };

    ghost invariant = { λ s. IsSampleForm s.negative s.size s.shift };

    ghost inverse = { λ z. let f = form_of
        z in record { size = f.size; shift = f.shift; negative = f.negative } };

    ghost inverse_ok = { λ s h. Prim.rw (form_of-sample s.negative s.size s.shift h) };
}

impl Sample {
    /// 0.
    pub const ZERO: Sample = Sample {
        size: 0,
        shift: 1000,
        negative: false,
    };

    /// `m * 10^e`, none exactly where that number has more than 18 digits or an exponent outside
    /// -350 to 350 in normal form.
    pub fn of(m: i64, e: i16) -> Option<Sample>
        ensures { result ≡ sample_of m e }
    {
        if m == 0 {
            return Some(Sample::ZERO);
        }
        let (size, noughts) = without_noughts(m.unsigned_abs());
        Sample::in_form(m < 0, size, shift_of(e, noughts))
    }

    /// `size * 10^(shift - 1000)`, none where that is out of range.
    fn in_form(negative: bool, size: u64, shift: i32) -> Option<Sample>
        requires { size % 10 ≡ 0 → ⊥ }
        ensures { result
            ≡ (if nat_lt size (10 ^ 18) && int_le (pos 650) shift && int_le shift (pos 1350)
            then Some (number negative size (unsigned_abs shift)) else None) }
    {
        let least = ONES + i32::from(MIN_SAMPLE_EXPONENT);
        let greatest = ONES + i32::from(MAX_SAMPLE_EXPONENT);
        if size >= SIZES || shift < least || shift > greatest {
            return None;
        }
        Some(Sample {
            size,
            shift: shift as u16,
            negative,
        })
    }

    /// The mantissa in normal form: it doesn't end with 0, or is 0.
    pub fn m(self) -> i64
        ensures value { result ≡ mantissa self }
        ensures few { unsigned_abs result < 10 ^ 18 }
        ensures sample { IsTrue (is_sample self) }
    {
        let size = self.size as i64;
        if self.negative { -size } else { size }
    }

    /// The exponent of ten in normal form, from -350 to 350.
    pub fn e(self) -> i16
        ensures value { result ≡ exponent self }
        ensures low { negsuc 349 ≤ℤ result }
        ensures high { result ≤ℤ pos 350 }
        ensures sample { IsTrue (is_sample self) }
    {
        self.shift as i16 - ONES as i16
    }
}

/// The shift of a number whose last digit counts `10^e` as long as these zeros stand after it.
fn shift_of(e: i16, noughts: u16) -> i32
    ensures { result ≡ e +ℤ pos (1000 + noughts) }
{
    i32::from(e) + ONES + i32::from(noughts)
}

impl PartialEq for Sample {
    ghost use Rattle.std.specs.Ordering.{int_eq};
    ghost use Rattle.std.specs.Cmp.Rules.{comparing};
    ghost use Rattle.std.proofs.Common.{rules};

    ghost eq = { int_eq };

    ghost laws = { Prim.search (comparing, rules) };

    fn eq(&self, other: &Sample) -> bool {
        self.negative == other.negative && self.size == other.size && self.shift == other.shift
    }
}

impl Eq for Sample {
    ghost use Rattle.std.specs.Cmp.{int_eq_equiv};

    ghost laws = { int_eq_equiv };
}

impl Ord for Sample {
    ghost use Rattle.std.specs.Ordering.{int_cmp};
    ghost use Rattle.std.specs.Cmp.Rules.{comparing};
    ghost use Rattle.std.proofs.Common.{rules};

    ghost cmp = { int_cmp };

    ghost total = { Prim.search (comparing, rules) };

    ghost matches_partial_cmp = { Prim.search (comparing, rules) };

    ghost matches_eq = { Prim.search (comparing, rules) };

    fn cmp(&self, other: &Sample) -> Ordering {
        let mine = Scaled {
            size: self.size,
            shift: self.shift,
        };
        let its = Scaled {
            size: other.size,
            shift: other.shift,
        };
        match (self.negative, other.negative) {
            (false, false) => compare(mine, its),
            (false, true) => Ordering::Greater,
            (true, false) => Ordering::Less,
            (true, true) => compare(its, mine),
        }
    }
}

impl PartialOrd for Sample {
    ghost use Rattle.std.specs.Ordering.{int_cmp, as_partial_cmp};
    ghost use Rattle.std.specs.Cmp.{signed_po};

    ghost partial_cmp = { as_partial_cmp int_cmp };

    ghost laws = { signed_po };

    fn partial_cmp(&self, other: &Sample) -> Option<Ordering> {
        Some(self.cmp(other))
    }
}
