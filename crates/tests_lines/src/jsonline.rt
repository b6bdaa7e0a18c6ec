//! `vm_jsonline`: lines and what they say. The expected values were worked out by hand from RFC
//! 8259 and from how VictoriaMetrics exports JSON lines; numbers as they print, rounded to 18
//! digits by Python's `decimal`.

use crate::jsonline_rows::ROWS;
use crate::printed::{push_row, push_skipped};
use std::alloc::{AllocError, Global};
use std::test::Fail;
use test_rows::repeated;
use vm_jsonline::{JsonLine, print_series, read_line};

/// As `ROWS`, with texts as `repeated` takes them: no text, white space, control characters,
/// brackets within brackets, a label's name and value at their limits and one above, a line of one
/// byte too many, and UTF-8 that is broken at its first byte, its second and its third. `0*.` is an
/// empty line.
const ESCAPED: &str = r#"nothing <- 0*.
nothing <-  \t\r
rows {a="\x08\x0c\r\t\x00"} 1 1 <- {"metric":{"a":"\\b\\f\\r\\t\\u0000"},"values":[1],"timestamps":[1]}
rows <- {"x":|99*[|99*]|,"metric":{"a":"1"},"values":[],"timestamps":[]}
skipped 104 <- {"x":|100*[|100*]|,"metric":{"a":"1"},"values":[],"timestamps":[]}
rows <- {"x":|99*{"a":|1|99*}|,"metric":{"a":"1"},"values":[],"timestamps":[]}
skipped 500 <- {"x":|100*{"a":|1|100*}|,"metric":{"a":"1"},"values":[],"timestamps":[]}
rows <- {"metric":{"a":"|4096*x|"},"values":[],"timestamps":[]}
skipped 0 <- {"metric":{"a":"|4097*x|"},"values":[],"timestamps":[]}
rows <- {"metric":{"|256*n|":"1"},"values":[],"timestamps":[]}
skipped 0 <- {"metric":{"|257*n|":"1"},"values":[],"timestamps":[]}
skipped 4194304 <- 4194305*\x20
skipped 6 <- {"x":"\xff"
skipped 7 <- {"x":"\xc3"
skipped 8 <- {"x":"\xe2\x82"
skipped 7 <- {"x":"\xed\xa0\x80""#;

/// A line ` -> ` its rows, printed as one series.
const PRINTED: &str =
    r#"{"metric":{"job":"x","__name__":"m"},"values":[1,2.50,null,-1e-9],"timestamps":[10,20,30,40]} -> {"metric":{"__name__":"m","job":"x"},"values":[1,2.5,-1e-9],"timestamps":[10,20,40]}
{"metric":{"a":"\u00e9\u0001\t\"\/\\"},"values":[1e30],"timestamps":[281474976710655]} -> {"metric":{"a":"é\u0001\t\"/\\"},"values":[1e+30],"timestamps":[281474976710655]}"#;

#[test]
fn lines(rt: HostRuntime) -> Result<(), Fail> {
    let mut count = 0u32;
    for row in ROWS.lines() {
        if let Some((due, line)) = row.split_once(" <- ") {
            assert!(rt; says(rt.alloc(), line.as_bytes(), due.as_bytes())?, "{row}");
            count = count.saturating_add(1);
        }
    }
    assert_eq!(rt; count, 64);
    Ok(())
}

#[test]
fn escaped_lines(rt: HostRuntime) -> Result<(), Fail> {
    for row in ESCAPED.lines() {
        assert!(rt; is_right(rt.alloc(), row)?, "{row}");
    }
    Ok(())
}

#[test]
fn prints(rt: HostRuntime) -> Result<(), Fail> {
    for row in PRINTED.lines() {
        assert!(rt; is_printed(rt.alloc(), row)?, "{row}");
    }
    Ok(())
}

/// Whether a line says what a row with escapes has.
fn is_right(alloc: Global, row: &str) -> Result<bool, AllocError> {
    let (due, line) = row.split_once(" <- ").unwrap_or(("no row", row));
    let line = repeated(alloc, line)?;
    let due = repeated(alloc, due)?;
    says(alloc, &line, &due)
}

/// Whether a line says what is due.
fn says(alloc: Global, line: &[u8], due: &[u8]) -> Result<bool, AllocError> {
    let mut said = Vec::new(alloc);
    match read_line(alloc, line)? {
        JsonLine::Nothing => said.extend_from_slice(b"nothing")?,
        JsonLine::Skipped { at } => push_skipped(alloc, at, &mut said)?,
        JsonLine::Rows(rows) => {
            said.extend_from_slice(b"rows")?;
            for row in rows.as_slice() {
                said.push(b' ')?;
                push_row(alloc, row, &mut said)?;
            }
        }
    }
    Ok(said.as_slice() == due)
}

/// Whether the rows of a line print as its row has it.
fn is_printed(alloc: Global, row: &str) -> Result<bool, AllocError> {
    let Some((line, due)) = row.split_once(" -> ") else {
        return Ok(false);
    };
    let JsonLine::Rows(rows) = read_line(alloc, line.as_bytes())? else {
        return Ok(false);
    };
    let [first, ..] = rows.as_slice() else {
        return Ok(false);
    };
    let mut samples = Vec::new(alloc);
    for row in rows.as_slice() {
        samples.push(row.stamped())?;
    }
    let mut printed = Vec::new(alloc);
    print_series(&first.labels, &samples, &mut printed)?;
    Ok(printed.as_slice() == due.as_bytes())
}
