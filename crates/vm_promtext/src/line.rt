//! What a line says.

ghost use Rattle.std.specs.Prelude.{◌≡◌, ◌≤◌, ◌<◌, ◌^◌, IfOk};
ghost use Rattle.vm_promtext.specs.Means.{IsReading};
ghost use Rattle.vm_promtext.specs.Reading.{line_reading, reading};
ghost use Rattle.vm_promtext.specs.inner.Stop.{Gives};

use crate::row::{place, read_row};
use crate::stop::Stop;
use crate::tokens::behind_blanks;
use std::alloc::{AllocError, Global};
use vm_base::limits::MAX_IMPORT_LINE;
use vm_labels::Row;

/// What one line of the text format says.
#[derive(Debug, Drop)]
pub enum Line {
    /// Nothing: it holds blanks alone or a comment.
    Nothing,
    /// A sample of a series.
    Row(Row),
    /// A value that is no number, as `NaN` or `+Inf`. Nothing is stored of it.
    NoNumber,
    /// No row, since it goes wrong at this place, counted in bytes from 0.
    Skipped { at: u64 },
}

/// Reads one line, without the line feed that ends it. A row without a time gets the time `now`, in
/// milliseconds since the Unix epoch.
///
/// `Skipped` names the first byte with which the bytes so far begin no line, or the line's length
/// where it ends too early. Where the line is in the grammar, it names the value's first byte for a
/// value out of range, or else the time's for a time above 2^48 - 1, or else 0 for labels that make
/// no label set or one beyond the limits of an import. These faults come before `NoNumber`.
///
/// A line of more than 4,194,304 bytes is `Skipped` at 4,194,304 whatever it holds, since a reader
/// of a stream never holds such a line as a whole. An `Err` says that memory ran out.
///
/// (Prometheus text format 0.0.4, "Line format")
pub fn read_line(alloc: Global, line: &[u8], now: u64) -> Result<Line, AllocError>
    requires { now < 2 ^ 48 }

    // What the line means, by the grammar.
    ensures meaning { IfOk result (IsReading now line.now) }
    // The same as a function of the line.
    ensures value { IfOk result (λ said. said ≡ reading now line.now) }
{
    any_line(alloc, line, now)
}

/// Reads a line of any length.
#[tactic(auto, unfolding(crate::specs::Reading::reading))]
fn any_line(alloc: Global, line: &[u8], now: u64) -> Result<Line, AllocError>
    ensures { IfOk result (λ said. said ≡ reading now line.now) }
{
    if line.len() as u64 > MAX_IMPORT_LINE {
        return Ok(Line::Skipped {
            at: MAX_IMPORT_LINE,
        });
    }
    match short_line(alloc, line, now) {
        Ok(said) => Ok(said),
        Err(Stop::Memory) => Err(AllocError),
        Err(Stop::Broken(wrong)) => Ok(Line::Skipped {
            at: place(line, wrong.left),
        }),
    }
}

/// Reads a line that isn't too long.
#[tactic(auto, unfolding(crate::specs::Reading::line_reading))]
fn short_line(alloc: Global, line: &[u8], now: u64) -> Result<Line, Stop>
    ensures { Gives (λ said. said) result (line_reading now line.now) }
{
    match behind_blanks(line) {
        [] => Ok(Line::Nothing),
        [b'#', ..] => Ok(Line::Nothing),
        text => read_row(alloc, line, text, now),
    }
}
