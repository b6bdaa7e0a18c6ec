//! A column written as bytes.
ghost use Rattle.std.specs.Prelude.{◌≡◌, ◌+◌, ◌*◌, ◌≤◌, ◌++◌, ◌∷◌, ◌&&◌, ◌==◌, length, take, drop, slice_get, Some, All, ℤ, ◌⊎◌, ◌<◌, ◌^◌, ◌-ℤ◌, unsigned_abs};
ghost use Rattle.vm_codec.specs.Coding.{IsColumn, IsInBounds, chosen, spelling};
ghost use Rattle.vm_codec.specs.Integer.{zigzag as zigzag_of};
ghost use Rattle.vm_codec.specs.inner.Reading.{lean_after as lean_of};
ghost use Rattle.vm_codec.specs.declared.coding.Coding.TheVariants.{NearestDelta2, NearestDelta};

use crate::Coding;
use crate::integer::write_number;
use crate::reading::lean_after;
use crate::zigzag::zigzag;
use vm_base::limits::MAX_BLOCK_SAMPLES;

/// The bytes that a column takes at most.
pub const MAX_COLUMN: usize = 81_920;

/// The bytes that an integer of a column takes at most. `encode` wants room for one integer a
/// value.
pub const MAX_INTEGER: usize = 10;

/// Writes a column to the front of `into`, in the coding that `choose` gives of its values, and
/// says how many bytes it takes. The first value is no part of them. What stands after them stays.
///
/// 1 to 8,192 values can be written, each strictly between -10^18 and 10^18.
pub fn encode(coding: Coding, values: &[i64], into: &mut [u8]) -> usize
    requires some { 1 ≤ length values.now }
    requires few { length values.now ≤ MAX_BLOCK_SAMPLES }
    requires bounds { All IsInBounds values.now }
    requires coding { coding ≡ chosen values.now }
    requires room { MAX_INTEGER * length values.now ≤ length into.old }
    ensures column { (first : ℤ) → slice_get values.now 0 ≡ Some first
        → IsColumn coding first (length values.now) (take result into.new) values.now }
    ensures within { result ≤ MAX_COLUMN }
    ensures rest { drop result into.new ≡ drop result into.old }
{
    match coding {
        Coding::Const => 0,
        Coding::DeltaConst => write_number(number_between(values[0], 0, values[1]), into, 0),
        Coding::NearestDelta2 | Coding::NearestDelta => write_differences(coding, values, into),
    }
}

/// Writes an integer for each value but the first.
fn write_differences(coding: Coding, values: &[i64], into: &mut [u8]) -> usize
    requires some { 1 ≤ length values.now }
    requires few { length values.now ≤ MAX_BLOCK_SAMPLES }
    requires bounds { All IsInBounds values.now }
    requires coding { (coding ≡ NearestDelta2) ⊎ (coding ≡ NearestDelta) }
    requires room { MAX_INTEGER * length values.now ≤ length into.old }
    ensures spelled { take result into.new ≡ spelling coding values.now }
    ensures within { result ≤ MAX_COLUMN }
    ensures rest { drop result into.new ≡ drop result into.old }
{
    let mut value = values[0];
    let mut lean = 0;
    let mut end = 0;
    for place in 1..values.len() {
        let next = values[place];
        end = write_number(number_between(value, lean, next), into, end);
        lean = lean_between(coding, value, next);
        value = next;
    }
    end
}

/// The number that is spelled for the value after this one.
pub(crate) fn number_between(value: i64, lean: i64, next: i64) -> u64
    requires value { IsInBounds value }
    requires next { IsInBounds next }
    requires lean { unsigned_abs lean < 2 * 10 ^ 18 }
    ensures { result ≡ zigzag_of (next -ℤ value -ℤ lean) }
{
    zigzag(next - value - lean)
}

/// What the integer after these two values is counted from.
pub(crate) fn lean_between(coding: Coding, value: i64, next: i64) -> i64
    requires value { IsInBounds value }
    requires next { IsInBounds next }
    ensures value { result ≡ lean_of coding (next -ℤ value) }
    ensures small { unsigned_abs result < 2 * 10 ^ 18 }
{
    lean_after(coding, next - value)
}
