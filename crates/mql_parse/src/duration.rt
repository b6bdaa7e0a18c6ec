//! What a duration says. (MetricsQL, "MetricsQL features": durations)

ghost use Rattle.std.specs.Prelude.{◌≡◌, ◌≤◌, ◌+◌, ◌*◌, ◌^◌, ◌∷◌, true, false, min, MatchOption};
ghost use Rattle.mql_lex.specs.Tokens.{StandsIn, slice_of};
ghost use Rattle.mql_parse.specs.Values.{ahead, is_short, length_of, length_behind, unit_at as unit_of_text, AsFar};

use mql_lex::{Span, Token};

/// One above the greatest number of ms, and of steps, of a duration.
pub const MAX_LENGTH: u64 = 1 << 48;

/// The ms and the steps of a duration, none where one of the two is `MAX_LENGTH` or more.
pub(crate) fn duration(text: &str, token: Token) -> Option<Span>
    requires stands { StandsIn text.now token }
    ensures { MatchOption result (is_short (length_of (slice_of text.now token)) ≡ false)
        (λ span. (is_short (length_of (slice_of text.now token)) ≡ true)
        × (span ≡ ahead (length_of (slice_of text.now token)))) }
{
    let at = token.at as usize;
    let total = added(&text.as_bytes()[at..at + token.len as usize]);
    if total.ms < MAX_LENGTH && total.steps < MAX_LENGTH {
        Some(Span {
            ms: total.ms as i64,
            steps: total.steps as i64,
        })
    } else {
        None
    }
}

/// What a duration counts up to some byte. From `MAX_LENGTH` on each number stands still.
#[derive(Clone, Copy)]
struct Sum {
    ms: u64,
    steps: u64,
    /// The number whose digits stand before the byte.
    count: u64,
    ghost few: { (ms ≤ 2 ^ 48) × (steps ≤ 2 ^ 48) × (count ≤ 2 ^ 48) },
}

/// The sum of what a duration counts.
#[tactic(auto, unfolding(crate::specs::Values::length_of))]
fn added(text: &[u8]) -> Sum
    ensures ms { AsFar result.ms (length_of text.now).ms }
    ensures steps { AsFar result.steps (length_of text.now).steps }
{
    let mut sum = Sum {
        ms: 0,
        steps: 0,
        count: 0,
    };
    let mut rest = text;
    'bytes: while let Some((byte, more)) = rest.split_first() {
        sum = taken(sum, *byte, more);
        rest = more;
    }
    sum
}

/// The sum after one more byte.
#[tactic(auto, using(crate::proofs::Sums::digit_ms, crate::proofs::Sums::digit_steps, crate::proofs::Sums::unit_ms, crate::proofs::Sums::unit_steps))]
fn taken(sum: Sum, byte: u8, more: &[u8]) -> Sum
    ensures ms { AsFar (result.ms + (length_behind result.count more.now).ms)
        (sum.ms + (length_behind sum.count (byte ∷ more.now)).ms) }
    ensures steps { AsFar (result.steps + (length_behind result.count more.now).steps)
        (sum.steps + (length_behind sum.count (byte ∷ more.now)).steps) }
{
    if byte.is_ascii_digit() {
        let count = (sum.count * 10 + u64::from(byte - b'0')).min(MAX_LENGTH);
        return Sum {
            ms: sum.ms,
            steps: sum.steps,
            count,
        };
    }
    let unit = unit_at(byte, more);
    Sum {
        ms: (sum.ms + times(sum.count, unit.ms)).min(MAX_LENGTH),
        steps: (sum.steps + times(sum.count, unit.steps)).min(MAX_LENGTH),
        count: 0,
    }
}

fn times(count: u64, unit: u64) -> u64
    ensures { result ≡ min (count * unit) (2 ^ 48) }
{
    count.saturating_mul(unit).min(MAX_LENGTH)
}

/// What one of a unit is.
#[derive(Clone, Copy)]
struct UnitLength {
    ms: u64,
    steps: u64,
}

/// One of the unit whose first letter stands before some more text.
fn unit_at(letter: u8, more: &[u8]) -> UnitLength
    ensures { unit_of_text letter more.now ≡ record { ms = result.ms; steps = result.steps } }
{
    let ms = match letter {
        b'm' if more.first() == Some(&b's') => 1,
        b'm' => 60_000,
        b's' => 1_000,
        b'h' => 3_600_000,
        b'd' => 86_400_000,
        b'w' => 604_800_000,
        b'y' => 31_536_000_000,
        _ => return UnitLength { ms: 0, steps: 1 },
    };
    UnitLength { ms, steps: 0 }
}
