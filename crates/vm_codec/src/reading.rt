//! A column read from bytes.
ghost use Rattle.std.specs.Prelude.{◌≡◌, ◌==◌, ◌&&◌, not, ◌*◌, IfSome, ◌∷◌, if◌then◌else◌, None, ◌+◌, ◌-◌, ◌<◌, ◌≤◌, ◌^◌, pos, ◌-ℤ◌, ◌+ℤ◌, List, ℤ, length, unsigned_abs, IfOk, IfErr, MatchResult, Ok, Err, OnOk, Some};
ghost use Rattle.std.specs.Option.{option_map};
ghost use Rattle.vm_codec.specs.Coding.{IsColumn, IsBroken, IsInBounds};
ghost use Rattle.vm_codec.specs.declared.coding.Coding.TheVariants.{DeltaConst};
ghost use Rattle.vm_codec.specs.inner.Reading.{decoded, is_const, column_at, values_at, next_at, steps_from, lean_after as lean_of, onto, all_read};

use crate::Coding;
use crate::bounds::bounded_sum;
use crate::integer::read_number;
use crate::zigzag::unzigzag;
use vm_base::Broken;
use vm_base::limits::MAX_BLOCK_SAMPLES;

/// Reads a column: `into` becomes its values, of which there are as many as it has places, and of
/// which the first one is `first`. 1 to 8,192 values can be read, and each lies strictly between
/// -10^18 and 10^18, as `first` has to.
///
/// `Broken` where the bytes aren't a column of so many values, exactly: it names the first byte of
/// the first integer that is spelled wrongly, is cut off or gives a value out of bounds, or else
/// the first byte after the last integer. It is at 0 for one value in another coding than `Const`.
/// What `into` holds then is left open.
pub fn decode(coding: Coding, first: i64, bytes: &[u8], into: &mut [i64]) -> Result<(), Broken>
    requires some { 1 ≤ length into.old }
    requires few { length into.old ≤ MAX_BLOCK_SAMPLES }
    requires bound { IsInBounds first }
    // What `Ok` holds.
    ensures column { OnOk result (IsColumn coding first (length into.old) bytes.now into.new) }
    ensures only { (values : List ℤ) → IsColumn coding first (length into.old) bytes.now values
        → (result ≡ Ok tt) × (into.new ≡ values) }
    // When the error comes.
    ensures broken { IfErr result (λ e. IsBroken coding first (length into.old) bytes.now e.at) }
{
    decode_all(coding, first, bytes, into)
}

/// Reads a column from its front to its end, or to where it breaks.
fn decode_all(coding: Coding, first: i64, bytes: &[u8], into: &mut [i64]) -> Result<(), Broken>
    requires some { 1 ≤ length into.old }
    requires bound { IsInBounds first }
    ensures read { OnOk result (decoded coding first (length into.old) bytes.now ≡ Ok into.new) }
    ensures broken { IfErr result
        (λ e. decoded coding first (length into.old) bytes.now ≡ Err e.at) }
{
    if is_lone(coding, into.len()) {
        return Err(Broken { at: 0 });
    }
    match read_column(coding, first, bytes, into) {
        Ok(rest) => nothing_left(bytes, rest),
        Err(broken) => Err(broken),
    }
}

/// Whether this would be one value in a coding of two or more.
fn is_lone(coding: Coding, count: usize) -> bool
    ensures { result ≡ (count == 1 && not (is_const coding)) }
{
    match coding {
        Coding::Const => false,
        Coding::DeltaConst | Coding::NearestDelta2 | Coding::NearestDelta => count == 1,
    }
}

/// Broken where bytes are left after the last integer.
fn nothing_left(bytes: &[u8], rest: &[u8]) -> Result<(), Broken>
    requires { length rest.now ≤ length bytes.now }
    ensures ok { OnOk result (length rest.now ≡ 0) }
    ensures broken { IfErr result (λ e. (0 < length rest.now)
        × (e.at ≡ length bytes.now - length rest.now)) }
{
    if rest.is_empty() {
        Ok(())
    } else {
        Err(left_at(bytes, rest))
    }
}

/// Where the last bytes of a column begin.
fn left_at(bytes: &[u8], rest: &[u8]) -> Broken
    requires { length rest.now ≤ length bytes.now }
    ensures { result.at ≡ length bytes.now - length rest.now }
{
    Broken {
        at: (bytes.len() - rest.len()) as u64,
    }
}

/// What follows an integer that gives a difference is counted from this.
pub(crate) fn lean_after(coding: Coding, difference: i64) -> i64
    ensures value { result ≡ lean_of coding difference }
    ensures small { unsigned_abs result ≤ unsigned_abs difference }
{
    match coding {
        Coding::NearestDelta2 => difference,
        _ => 0,
    }
}

/// The value after this one, and the bytes after its integer.
#[tactic(auto, unfolding(crate::specs::inner::Reading::next_at))]
fn next_value(value: i64, lean: i64, bytes: &[u8]) -> Option<(i64, &[u8])>
    requires bound { IsInBounds value }
    requires lean { unsigned_abs lean < 2 * 10 ^ 18 }
    ensures value { option_map (λ r. (r.0, r.1.now)) result ≡ next_at value lean bytes.now }
    ensures bound { IfSome result (λ r. IsInBounds r.0) }
    ensures shorter { IfSome result (λ r. length r.1.now ≤ length bytes.now) }
{
    let (number, rest) = read_number(bytes)?;
    let next = bounded_sum(value + lean, unzigzag(number))?;
    Some((next, rest))
}

/// The values by the integers at the front, and the bytes after these.
fn read_column<'a>(
    coding: Coding,
    first: i64,
    bytes: &'a [u8],
    into: &mut [i64],
) -> Result<&'a [u8], Broken>
    requires some { 1 ≤ length into.old }
    requires bound { IsInBounds first }
    ensures read { IfOk result
        (λ rest. onto first (column_at coding first (length into.old - 1) bytes.now)
        ≡ Ok (into.new, rest.now)) }
    ensures shorter { IfOk result (λ rest. length rest.now ≤ length bytes.now) }
    ensures broken { IfErr result (λ e. all_read (length bytes.now)
        (onto first (column_at coding first (length into.old - 1) bytes.now)) ≡ Err e.at) }
{
    match coding {
        Coding::DeltaConst => read_steps(first, bytes, into),
        Coding::Const => {
            into.fill(first);
            Ok(bytes)
        }
        Coding::NearestDelta2 | Coding::NearestDelta => read_differences(
            coding, first, bytes, into,
        ),
    }
}

/// Values by an integer each.
fn read_differences<'a>(
    coding: Coding,
    first: i64,
    bytes: &'a [u8],
    into: &mut [i64],
) -> Result<&'a [u8], Broken>
    requires some { 1 ≤ length into.old }
    requires bound { IsInBounds first }
    ensures read { IfOk result
        (λ rest. onto first (values_at coding (length into.old - 1) first (pos 0) bytes.now)
        ≡ Ok (into.new, rest.now)) }
    ensures shorter { IfOk result (λ rest. length rest.now ≤ length bytes.now) }
    ensures broken { IfErr result (λ e. all_read (length bytes.now)
        (onto first (values_at coding (length into.old - 1) first (pos 0) bytes.now)) ≡ Err e.at) }
{
    into[0] = first;
    let mut value = first;
    let mut lean = 0;
    let mut rest = bytes;
    for place in 1..into.len() {
        let Some((next, more)) = next_value(value, lean, rest) else {
            return Err(left_at(bytes, rest));
        };
        into[place] = next;
        lean = lean_after(coding, next - value);
        value = next;
        rest = more;
    }
    Ok(rest)
}

/// Values as far apart as the one integer says.
fn read_steps<'a>(first: i64, bytes: &'a [u8], into: &mut [i64]) -> Result<&'a [u8], Broken>
    requires some { 1 ≤ length into.old }
    requires bound { IsInBounds first }
    ensures read { IfOk result
        (λ rest. onto first (column_at DeltaConst first (length into.old - 1) bytes.now)
        ≡ Ok (into.new, rest.now)) }
    ensures shorter { IfOk result (λ rest. length rest.now ≤ length bytes.now) }
    ensures broken { IfErr result (λ e. all_read (length bytes.now)
        (onto first (column_at DeltaConst first (length into.old - 1) bytes.now)) ≡ Err e.at) }
{
    let Some((number, rest)) = read_number(bytes) else {
        return Err(Broken { at: 0 });
    };
    if fill_steps(first, unzigzag(number), into) {
        Ok(rest)
    } else {
        Err(Broken { at: 0 })
    }
}

/// Values from the first one on, each as far above the one before it. False where one is out of
/// bounds.
fn fill_steps(first: i64, step: i64, into: &mut [i64]) -> bool
    requires some { 1 ≤ length into.old }
    requires bound { IsInBounds first }
    ensures { option_map (λ others. first ∷ others) (steps_from (length into.old - 1) first step)
        ≡ (if result then Some into.new else None) }
{
    into[0] = first;
    let mut value = first;
    for place in 1..into.len() {
        let Some(next) = bounded_sum(value, step) else {
            return false;
        };
        into[place] = next;
        value = next;
    }
    true
}
