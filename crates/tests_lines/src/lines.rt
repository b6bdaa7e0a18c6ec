//! `vm_lines`: the lines of worked inputs, in pieces of several sizes. What is expected follows
//! from how a text is split: at line feeds, without the one carriage return at a line's end.
//!
//! A line may have 4,194,304 bytes without its carriage return. Inputs are read up to 2^62 bytes:
//! with three bytes to go, a reader shows the lines in them, and comes to the end only where it
//! meets the end before the limit.

use crate::printed::push_number;
use std::alloc::{AllocError, Global};
use std::test::Fail;
use test_rows::repeated;
use vm_base::limits::MAX_INPUT;
use vm_lines::{LineFault, LineReader, Step};
use vm_outside::{MemSource, Source};

/// How many bytes were taken before, the rest of the input ` -> ` each line with `/` after it, or
/// the length of one with more than 99 bytes, `#` for one that is too long, and `.` for the end or
/// `!` for an input that is too long. Texts are as `repeated` takes them.
const ROWS: &str = r"0  -> .
0 \n -> /.
0 \n\n\n -> ///.
0 \r\n -> /.
0 \r -> /.
0 a -> a/.
0 a\n -> a/.
0 a\n\nb -> a//b/.
0 ab\r\ncd\r\n -> ab/cd/.
0 a\rb\n -> a\rb/.
0 \ra\n -> \ra/.
0 a\r\r\nb -> a\r/b/.
0 a\nb\r -> a/b/.
0 a\nb\r\r -> a/b\r/.
0 one line\nand one more\n -> one line/and one more/.
0 70000*x|\nabc -> 70000/abc/.
0 200000*x|\r\nabc\n -> 200000/abc/.
0 4194304*x|\nabc -> 4194304/abc/.
0 4194304*x|\r\nabc -> 4194304/abc/.
0 4194304*x -> 4194304/.
0 4194304*x|\r -> 4194304/.
0 4194304*x|\r\r -> #.
0 4194304*x|\r\r\nabc -> #abc/.
0 4194305*x|\nabc\n -> #abc/.
0 4194305*x|\r\nabc -> #abc/.
0 4194305*x -> #.
0 9000000*x|\n\nabc -> #/abc/.
0 9000000*x|\r -> #.
4611686018427387901 ab\n -> ab/!
4611686018427387901 ab\ncd -> ab/!
4611686018427387901 \nab -> /!
4611686018427387901 ab -> ab/.
4611686018427387901 a\n -> a/.";

/// The length from which an input is long, and from which a line is shown by its length.
const LONG: usize = 100;

#[test]
fn lines(rt: HostRuntime) -> Result<(), Fail> {
    for row in ROWS.lines() {
        assert!(rt; is_right(rt.alloc(), row)?, "{row}");
    }
    Ok(())
}

/// The end of an input is met once: after an unfinished last line no call is made that could fail.
#[test]
fn the_end_is_read_once(rt: HostRuntime) -> Result<(), Fail> {
    let alloc = rt.alloc();
    let bytes = Vec::from_slice(alloc, b"a")?;
    let failing = Vec::from_array(alloc, [2])?;
    let mut input = MemSource::new(bytes, failing);
    let lines = shown(alloc, 0, &mut input, false)?;
    assert!(rt; lines.as_slice() == b"a/.".as_slice());
    Ok(())
}

/// Whether the lines of an input are those of its row, by each size of pieces.
fn is_right(alloc: Global, row: &str) -> Result<bool, AllocError> {
    let Some((given, due)) = row.split_once(" -> ") else {
        return Ok(false);
    };
    let Some((taken, text)) = given.split_once(' ') else {
        return Ok(false);
    };
    let Ok(taken) = taken.parse::<u64>() else {
        return Ok(false);
    };
    let text = repeated(alloc, text)?;
    let due = repeated(alloc, due)?;
    for most in [1, 2, 7, usize::MAX] {
        let mut input = input(alloc, &text, most)?;
        if shown(alloc, taken, &mut input, text.len() < LONG)?.as_slice() != due.as_slice() {
            return Ok(false);
        }
    }
    Ok(true)
}

/// An input in pieces of at most so many bytes, some of whose calls fail. A long one has none that
/// fail, since what follows a failure amid a line that is too long is a line of its own, and comes
/// in pieces that are 65,537 times as long.
fn input(alloc: Global, text: &[u8], most: usize) -> Result<MemSource, AllocError> {
    let bytes = Vec::from_slice(alloc, text)?;
    if bytes.len() < LONG {
        let failing = Vec::from_array(alloc, [0, 2, 3])?;
        return Ok(MemSource::in_pieces(bytes, most.max(1), failing));
    }
    let most = most.saturating_mul(65_537).max(1);
    Ok(MemSource::in_pieces(bytes, most, Vec::new(alloc)))
}

/// The lines as a row has them. Where the input may fail, a call that fails is made again.
fn shown<S: Source>(
    alloc: Global,
    taken: u64,
    input: &mut S,
    may_fail: bool,
) -> Result<Vec<u8>, AllocError> {
    let mut shown = Vec::new(alloc);
    if taken > MAX_INPUT {
        return Ok(shown);
    }
    let mut reader = LineReader::after(alloc, taken)?;
    for _ in 0..40 {
        match reader.advance(input) {
            Ok(Step::Line) => {
                push_line(alloc, reader.line(), &mut shown)?;
                shown.push(b'/')?;
            }
            Ok(Step::TooLong) => shown.push(b'#')?,
            Ok(Step::End) => {
                shown.push(b'.')?;
                return Ok(shown);
            }
            Err(LineFault::InputTooLong) => {
                shown.push(b'!')?;
                return Ok(shown);
            }
            Err(LineFault::Input) if may_fail => {}
            Err(_) => return Err(AllocError),
        }
    }
    Ok(shown)
}

/// Writes a line, or the length of a long one.
fn push_line(alloc: Global, line: &[u8], out: &mut Vec<u8>) -> Result<(), AllocError> {
    if line.len() < LONG {
        return out.extend_from_slice(line);
    }
    push_number(alloc, line.len() as u64, out)
}
