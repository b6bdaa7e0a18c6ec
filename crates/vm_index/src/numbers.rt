//! Sets of numbers, as slices that rise.

ghost use Rattle.std.specs.Prelude.{◌≡◌, ◌&&◌, ◌||◌, ◌++◌, [], nat_le, nat_lt, not, filter, position, OnOk, OnErr};
ghost use Rattle.vm_index.specs.Numbers.{AreThose, Rise, holds, kept, merged};

use std::alloc::AllocError;

/// A set of numbers, parted at one number.
#[derive(Clone, Copy)]
struct Parts<'a> {
    below: &'a [u64],
    found: bool,
    above: &'a [u64],
}

/// Makes `out` the numbers that both sets have. It is empty where memory runs out.
pub fn and(a: &[u64], b: &[u64], out: &mut Vec<u64>) -> Result<(), AllocError>
    requires a { Rise a.now }
    requires b { Rise b.now }
    ensures ok { OnOk result (AreThose (λ n. holds a.now n && holds b.now n) out.new.items) }
    ensures err { OnErr result (out.new.items ≡ []) }
{
    out.clear();
    let put = put_kept(a, b, true, out);
    if put.is_err() {
        out.clear();
    }
    put
}

/// Makes `out` the numbers that one of the sets has, or both. It is empty where memory runs out.
pub fn or(a: &[u64], b: &[u64], out: &mut Vec<u64>) -> Result<(), AllocError>
    requires a { Rise a.now }
    requires b { Rise b.now }
    ensures ok { OnOk result (AreThose (λ n. holds a.now n || holds b.now n) out.new.items) }
    ensures err { OnErr result (out.new.items ≡ []) }
{
    out.clear();
    let put = put_all(a, b, out);
    if put.is_err() {
        out.clear();
    }
    put
}

/// Makes `out` the numbers that `a` has and `b` hasn't. It is empty where memory runs out.
pub fn minus(a: &[u64], b: &[u64], out: &mut Vec<u64>) -> Result<(), AllocError>
    requires a { Rise a.now }
    requires b { Rise b.now }
    ensures ok { OnOk result (AreThose (λ n. holds a.now n && not (holds b.now n)) out.new.items) }
    ensures err { OnErr result (out.new.items ≡ []) }
{
    out.clear();
    let put = put_kept(a, b, false, out);
    if put.is_err() {
        out.clear();
    }
    put
}

/// Appends the numbers of `a` that are among those of `b`, or else those that aren't.
fn put_kept(a: &[u64], b: &[u64], among: bool, out: &mut Vec<u64>) -> Result<(), AllocError>
    requires a { Rise a.now }
    requires b { Rise b.now }
    ensures { OnOk result (out.new.items ≡ out.old.items ++ kept among b.now a.now) }
{
    let mut rest = b;
    for n in a {
        let parts = part_at(rest, *n);
        if parts.found == among {
            out.push(*n)?;
        }
        rest = parts.above;
    }
    Ok(())
}

/// Appends the numbers of both sets.
fn put_all(a: &[u64], b: &[u64], out: &mut Vec<u64>) -> Result<(), AllocError>
    requires a { Rise a.now }
    requires b { Rise b.now }
    ensures { OnOk result (out.new.items ≡ out.old.items ++ merged a.now b.now) }
{
    let mut rest = b;
    for n in a {
        let parts = part_at(rest, *n);
        out.extend_from_slice(parts.below)?;
        out.push(*n)?;
        rest = parts.above;
    }
    out.extend_from_slice(rest)
}

/// The numbers below one, whether it is there, and those above it.
fn part_at(numbers: &[u64], n: u64) -> Parts<'_>
    requires { Rise numbers.now }
    ensures below { result.below.now ≡ filter (λ m. nat_lt m n) numbers.now }
    ensures found { result.found ≡ holds numbers.now n }
    ensures above { result.above.now ≡ filter (nat_lt n) numbers.now }
{
    let at = place_from(numbers, n).unwrap_or(numbers.len());
    let (below, rest) = numbers.split_at(at);
    match rest {
        [first, above @ ..] => {
            if *first == n {
                Parts {
                    below,
                    found: true,
                    above,
                }
            } else {
                Parts {
                    below,
                    found: false,
                    above: rest,
                }
            }
        }
        [] => Parts {
            below,
            found: false,
            above: rest,
        },
    }
}

/// The place of the first number that isn't below n.
fn place_from(numbers: &[u64], n: u64) -> Option<usize>
    ensures { result ≡ position (nat_le n) numbers.now }
{
    numbers.iter().position(|m| *m >= n)
}
