//! What a line says.

ghost use Rattle.std.specs.Prelude.{◌≡◌, IfOk};
ghost use Rattle.vm_jsonline.specs.Means.{IsReading};
ghost use Rattle.vm_jsonline.specs.Reading.{reading, short_reading, line_rows};
ghost use Rattle.vm_jsonline.specs.Series.{or_skipped};

use crate::parts::behind_spaces;
use crate::series::read_rows;
use crate::stop::Stop;
use crate::strings::is_paired;
use std::alloc::{AllocError, Global};
use vm_base::List;
use vm_base::limits::MAX_IMPORT_LINE;
use vm_json::first_wrong;
use vm_labels::Row;

/// What one line of a JSON import says.
#[derive(Debug, Drop)]
pub enum JsonLine {
    /// Nothing: it holds white space alone.
    Nothing,
    /// Samples of one series, in the order in which they are written. There may be none.
    Rows(List<Row>),
    /// No rows, since it goes wrong at this place, counted in bytes from 0.
    Skipped { at: u64 },
}

/// Reads one line, without the line feed that ends it.
///
/// A line is a JSON object with the members `metric`, an object of strings, `values`, an array of
/// numbers, nulls and texts that say that there is no number, and `timestamps`, an array of as many
/// whole numbers of milliseconds, from 0 to 2^48 - 1, written in digits alone. Each of the three
/// stands there once; others are ignored. A null and a text give no row.
///
/// `Skipped` names the first byte with which the bytes so far begin no JSON text of at most 100
/// levels, or the line's length where it ends too early. Of a JSON text it names 0 where the text
/// is no such object, a string holds half a pair of UTF-16, a value is out of range, or the labels
/// make no label set or one beyond the limits of an import.
///
/// A line of more than 4,194,304 bytes is `Skipped` at 4,194,304 whatever it holds, since a reader
/// of a stream never holds such a line as a whole. An `Err` says that memory ran out.
///
/// (VictoriaMetrics documentation, "JSON line format"; RFC 8259)
pub fn read_line(alloc: Global, line: &[u8]) -> Result<JsonLine, AllocError>
    // What the line means, by the grammar.
    ensures meaning { IfOk result (IsReading line.now) }
    // The same as a function of the line.
    ensures value { IfOk result (λ said. said ≡ reading line.now) }
{
    any_line(alloc, line)
}

/// Reads a line of any length.
#[tactic(auto, unfolding(crate::specs::Reading::reading))]
fn any_line(alloc: Global, line: &[u8]) -> Result<JsonLine, AllocError>
    ensures { IfOk result (λ said. said ≡ reading line.now) }
{
    if line.len() as u64 > MAX_IMPORT_LINE {
        return Ok(JsonLine::Skipped {
            at: MAX_IMPORT_LINE,
        });
    }
    short_line(alloc, line)
}

/// Reads a line that isn't too long.
#[tactic(auto, unfolding(crate::specs::Reading::short_reading))]
fn short_line(alloc: Global, line: &[u8]) -> Result<JsonLine, AllocError>
    ensures { IfOk result (λ said. said ≡ short_reading line.now) }
{
    let text = behind_spaces(line);
    if text.is_empty() {
        return Ok(JsonLine::Nothing);
    }
    if let Some(at) = first_wrong(line) {
        return Ok(JsonLine::Skipped { at: at as u64 });
    }
    json_line(alloc, line, text)
}

/// Reads a line that is JSON, which stands in it after white space.
fn json_line(alloc: Global, line: &[u8], text: &[u8]) -> Result<JsonLine, AllocError>
    ensures { IfOk result (λ said. said ≡ or_skipped (line_rows line.now text.now)) }
{
    if !is_paired(line) {
        return Ok(JsonLine::Skipped { at: 0 });
    }
    match read_rows(alloc, text) {
        Ok(rows) => Ok(JsonLine::Rows(rows)),
        Err(Stop::Memory) => Err(AllocError),
        Err(Stop::Faulty) => Ok(JsonLine::Skipped { at: 0 }),
    }
}
