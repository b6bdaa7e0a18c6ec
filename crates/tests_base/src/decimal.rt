//! Exact decimal numbers: what is calculated, and how numbers are read and written, by
//! `vm_decimal`.
//!
//! Results of calculations were worked out by Python's `fractions` (`arithmetic_rows.rt`). What
//! texts say is by Python's `decimal` (`sample_rows.rt` says more), and so are the digits of texts
//! that are written. The places of faults were found by a regular expression for what begins a
//! number.
use crate::arithmetic_rows::CALCULATIONS;
use crate::base::{sample, stand};
use crate::sample_rows::SAMPLE_TEXTS;
use std::alloc::{AllocError, Global};
use test_rows::bytes_of;
use vm_decimal::{Dec, NumFault, Range, SampleText, read, read_sample};

/// A word, what is given and what is due, by its word:
///
/// - `written m e -> text`: the text of the sample `m * 10^e`;
/// - `number m e -> text`: the text of the number `m * 10^e`;
/// - `of m e -> m e`: the number `m * 10^e` in normal form, `none` where there is none;
/// - `sample text -> m e`: the sample of the number that a text writes, `none` where there is none;
/// - `read text -> m e`: the number that a text writes in normal form, or `too wide`, or the place
///   at which the text is `wrong`.
const NUMBERS: &str = "\
written 0 0 -> 0
written 0 7 -> 0
written 1 0 -> 1
written -1 0 -> -1
written 5 -1 -> 0.5
written -50 -2 -> -0.5
written 10 0 -> 10
written 123456 -3 -> 123.456
written 27667 -9 -> 0.000027667
written 999999999999999999 0 -> 999999999999999999
written -999999999999999999 -18 -> -0.999999999999999999
written 1 20 -> 100000000000000000000
written 1 21 -> 1e+21
written -12 20 -> -1.2e+21
written 123456789012345678 3 -> 123456789012345678000
written 123456789012345678 4 -> 1.23456789012345678e+21
written 1 -7 -> 0.0000001
written 1 -8 -> 1e-8
written 15 -8 -> 0.00000015
written 15 -9 -> 1.5e-8
written 999999999999999999 -24 -> 0.000000999999999999999999
written 999999999999999999 -25 -> 9.99999999999999999e-8
written 9 99 -> 9e+99
written 1 350 -> 1e+350
written -15 -350 -> -1.5e-349
number -12345678901234567890123456789012345679 -44 -> -0.00000012345678901234567890123456789012345679
number -12345678901234567890123456789012345679 1000 -> -1.2345678901234567890123456789012345679e+1037
of 10 0 -> 1 1
of 0 7 -> 0 0
of 100000 -1005 -> 1 -1000
of 1 1001 -> none
of 10 1000 -> none
of -15 -1001 -> none
of -99999999999999999999999999999999999999 -1000 -> -99999999999999999999999999999999999999 -1000
of 100000000000000000000000000000000000000 0 -> 1 38
of 100000000000000000000000000000000000001 0 -> none
sample -1.25 -> -125 -2
sample 1e351 -> none
sample 1000000000000000001 -> none
read -0 -> 0 0
read +.5 -> 5 -1
read 00.10 -> 1 -1
read 1E+5 -> 1 5
read 0e999999999999999999999999999999999999 -> 0 0
read 1e1000 -> 1 1000
read 10e1000 -> too wide
read 10e-1001 -> 1 -1000
read 1e-1001 -> too wide
read 1e123456789012345678901234567890123 -> too wide
read 12345678901234567890.123456789012345678 -> 12345678901234567890123456789012345678 -18
read 0.123456789012345678901234567890123456789 -> too wide
read 100000000000000000000000000000000000000000000000000e-50 -> 1 0
read 100000000000000000000000000000000000000000000000001e-50 -> too wide
read -1234567890123456789012345678901234567800.000 -> -12345678901234567890123456789012345678 2
read  -> wrong 0
read nan -> wrong 0
read -inf -> wrong 1
read 1e -> wrong 2
read 1.2.3 -> wrong 3
";

/// Whether a row of any table is right.
fn is_right(alloc: Global, row: &str) -> Result<bool, AllocError> {
    let Some((given, due)) = row.split_once(" -> ") else {
        return is_calculated(alloc, row);
    };
    let Some((word, given)) = given.split_once(" ") else {
        return Ok(false);
    };
    match word {
        "written" => is_printed(alloc, sample(given).map(Dec::of_sample), due),
        "number" => is_printed(alloc, dec(given), due),
        "says" => is_said(alloc, given, due),
        "of" => Ok(parts(given).is_some() && comes_to(dec(given), due)),
        "read" => Ok(is_read(given, due)),
        "sample" => Ok(is_sample(given, due)),
        _ => Ok(false),
    }
}

/// A mantissa and an exponent.
fn parts(text: &str) -> Option<(i128, i16)> {
    let (m, e) = text.split_once(" ")?;
    Some((m.parse().ok()?, e.parse().ok()?))
}

fn dec(number: &str) -> Option<Dec> {
    let (m, e) = parts(number)?;
    Dec::of(m, e)
}

/// Whether a number has this text, and is read from it.
fn is_printed(alloc: Global, number: Option<Dec>, text: &str) -> Result<bool, AllocError> {
    let Some(number) = number else {
        return Ok(false);
    };
    let mut out = Vec::new(alloc);
    number.print(&mut out)?;
    Ok(out.as_slice() == text.as_bytes() && read(text.as_bytes()) == Ok(number))
}

/// Whether a number has these parts in normal form, or there is none.
fn comes_to(number: Option<Dec>, due: &str) -> bool {
    match (number, parts(due)) {
        (Some(number), Some((due_m, due_e))) => {
            let (m, e) = number.parts();
            m == due_m && e == due_e
        }
        (None, None) => due == "none",
        _ => false,
    }
}

fn is_read(text: &str, due: &str) -> bool {
    match read(text.as_bytes()) {
        Ok(number) => comes_to(Some(number), due),
        Err(fault) => is_fault(fault, due),
    }
}

fn is_fault(fault: NumFault, due: &str) -> bool {
    match fault {
        NumFault::TooWide => due == "too wide",
        NumFault::NotANumber { at } => match due.strip_prefix("wrong ") {
            Some(place) => place.parse() == Ok(at),
            None => false,
        },
    }
}

/// Whether this is the sample of the number that a text writes.
fn is_sample(text: &str, due: &str) -> bool {
    let Ok(number) = read(text.as_bytes()) else {
        return false;
    };
    match sample(due) {
        Some(sample) => number.to_sample() == Some(sample),
        None => due == "none" && number.to_sample() == None,
    }
}

/// Whether a text says this of a sample.
fn says(text: &[u8], due: &str) -> bool {
    match read_sample(text) {
        Ok(said) => match sample(due) {
            Some(sample) => said == SampleText::Value(sample),
            None => due == "no number" && said == SampleText::NoNumber,
        },
        Err(fault) => is_fault(fault, due),
    }
}

/// Whether a text that may have many of one digit says this of a sample.
fn is_said(alloc: Global, text: &str, due: &str) -> Result<bool, AllocError> {
    let mut parts = text.split('|');
    let mut text = bytes_of(alloc, parts.next().unwrap_or(""))?;
    let digit = parts.next().unwrap_or("").as_bytes();
    let Ok(times) = parts.next().unwrap_or("0").parse::<u32>() else {
        return Ok(false);
    };
    for _ in 0..times {
        text.extend_from_slice(digit)?;
    }
    text.extend_from_slice(parts.next().unwrap_or("").as_bytes())?;
    Ok(says(text.as_slice(), due))
}

/// Whether a calculation has this result.
fn is_calculated(alloc: Global, row: &str) -> Result<bool, AllocError> {
    let mut words = row.split(' ');
    let one = read(words.next().unwrap_or("").as_bytes());
    let operation = words.next().unwrap_or("");
    let two = read(words.next().unwrap_or("").as_bytes());
    let due = words.nth(1).unwrap_or("");
    let (Ok(one), Ok(two)) = (one, two) else {
        return Ok(false);
    };
    match calculated(one, operation, two) {
        Ok(Some(number)) => is_printed(alloc, Some(number), due),
        Ok(None) if operation == "<" => Ok(stand(&one, &two, due)),
        Ok(None) => Ok(due == "none"),
        Err(Range) => Ok(due == "range"),
    }
}

fn calculated(one: Dec, operation: &str, two: Dec) -> Result<Option<Dec>, Range> {
    match operation {
        "+" => one.add(two).map(Some),
        "-" => one.sub(two).map(Some),
        "*" => one.mul(two).map(Some),
        "%" => one.rem(two),
        "/" => one.quot9(two),
        "round" if two > Dec::ZERO => one.round_to(two).map(Some),
        "floor" => Ok(Some(one.floor())),
        "ceil" => Ok(Some(one.ceil())),
        _ => Ok(None),
    }
}

#[test]
fn rows(rt: HostRuntime) -> Result<(), AllocError> {
    for table in [NUMBERS, CALCULATIONS, SAMPLE_TEXTS] {
        for row in table.lines() {
            assert!(rt; is_right(rt.alloc(), row)?, "{row}");
        }
    }
    Ok(())
}
