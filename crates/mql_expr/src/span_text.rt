//! How a span of time is written.

ghost use Rattle.std.specs.Prelude.{◌≡◌, ◌++◌, ◌<◌, OnOk};
ghost use Rattle.mql_expr.specs.Spans.{unit_ms as ms_of, unit_text as text_of_unit, is_whole as whole, greatest_unit as greatest, count_text, ms_text, size_text, span_text, is_negative as negative};

use itoa::Buffer;
use mql_lex::Span;
use std::alloc::AllocError;

/// A unit of time. (MetricsQL, "Durations"; PromQL, "Time durations") No call takes or gives one:
/// it is a word of the laws of `mql_laws`.
#[derive(Clone, Copy)]
pub enum Unit {
    /// `d`
    Day,
    /// `h`
    Hour,
    /// `m`
    Minute,
    /// `s`
    Second,
    /// `ms`
    Millisecond,
}

pub(crate) fn is_negative(span: Span) -> bool
    ensures { result ≡ negative span }
{
    span.ms < 0 || span.steps < 0
}

/// Appends a span without its sign.
pub(crate) fn put_span_size(span: Span, out: &mut Vec<u8>) -> Result<(), AllocError>
    ensures { OnOk result (out.new.items ≡ out.old.items ++ span_text span) }
{
    put_size(span.ms.unsigned_abs(), span.steps.unsigned_abs(), out)
}

fn put_size(ms: u64, steps: u64, out: &mut Vec<u8>) -> Result<(), AllocError>
    ensures { OnOk result (out.new.items ≡ out.old.items ++ size_text ms steps) }
{
    if ms == 0 && steps == 0 {
        return out.extend_from_slice(b"0s");
    }
    put_ms(ms, out)?;
    put_count(steps, b"i", out)
}

fn put_ms(ms: u64, out: &mut Vec<u8>) -> Result<(), AllocError>
    ensures { OnOk result (out.new.items ≡ out.old.items ++ ms_text ms) }
{
    let unit = greatest_unit(ms);
    put_count(ms / unit_ms(unit), unit_text(unit), out)
}

/// Appends so many units, and nothing where there are none.
fn put_count(count: u64, unit: &[u8], out: &mut Vec<u8>) -> Result<(), AllocError>
    ensures { OnOk result (out.new.items ≡ out.old.items ++ count_text count unit.now) }
{
    if count == 0 {
        return Ok(());
    }
    let mut buffer = Buffer::new();
    out.extend_from_slice(buffer.format(count).as_bytes())?;
    out.extend_from_slice(unit)
}

fn greatest_unit(ms: u64) -> Unit
    ensures { result ≡ greatest ms }
{
    if is_whole(ms, Unit::Day) {
        Unit::Day
    } else if is_whole(ms, Unit::Hour) {
        Unit::Hour
    } else if is_whole(ms, Unit::Minute) {
        Unit::Minute
    } else if is_whole(ms, Unit::Second) {
        Unit::Second
    } else {
        Unit::Millisecond
    }
}

fn is_whole(ms: u64, unit: Unit) -> bool
    ensures { result ≡ whole ms unit }
{
    ms % unit_ms(unit) == 0
}

fn unit_ms(unit: Unit) -> u64
    ensures value { result ≡ ms_of unit }
    ensures some { 0 < result }
{
    match unit {
        Unit::Day => 86_400_000,
        Unit::Hour => 3_600_000,
        Unit::Minute => 60_000,
        Unit::Second => 1000,
        Unit::Millisecond => 1,
    }
}

fn unit_text(unit: Unit) -> &'static [u8]
    ensures { result.now ≡ text_of_unit unit }
{
    match unit {
        Unit::Day => b"d",
        Unit::Hour => b"h",
        Unit::Minute => b"m",
        Unit::Second => b"s",
        Unit::Millisecond => b"ms",
    }
}
