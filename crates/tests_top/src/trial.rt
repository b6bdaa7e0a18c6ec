//! One run of the program over objects in memory, as a row of a table says it.

use std::alloc::{AllocError, Global};
use test_rows::bytes_of;
use vm_outside::{MemClock, MemSink, MemSource, NoDisk, NoLink, NoPatterns};
use vm_top::run_words;

/// The body of a reply, before its series and after them.
const HEAD: &str = "{\"status\":\"success\",\"data\":{\"resultType\":\"vector\",\"result\":[";

const TAIL: &str = "]}}\n";

/// No call of a source or a sink has this number.
const NEVER: u64 = u64::MAX;

/// How an input comes and an output goes.
#[derive(Clone, Copy)]
pub(crate) struct How {
    /// How many bytes a read gives and a write takes at most.
    most: usize,
    /// The number of the read that fails, and of the write.
    bad_read: u64,
    bad_write: u64,
}

/// Nothing fails, and a call moves so many bytes at most.
pub(crate) fn pieces(most: usize) -> How {
    How {
        most,
        bad_read: NEVER,
        bad_write: NEVER,
    }
}

/// What a run of the program leaves: the digit of its exit status, its notes, a bar and its output.
pub(crate) fn left(
    alloc: Global,
    words: &str,
    input: &[u8],
    how: How,
) -> Result<Vec<u8>, AllocError> {
    let input = Vec::from_slice(alloc, input)?;
    let failing = Vec::from_array(alloc, [how.bad_read])?;
    let mut source = MemSource::in_pieces(input, how.most.max(1), failing);
    let failing = Vec::from_array(alloc, [how.bad_write])?;
    let mut output = MemSink::in_pieces(alloc, how.most.max(1), failing);
    let mut notes = MemSink::steady(alloc);
    let status = run_words(
        alloc,
        &words_of(alloc, words)?,
        &mut source,
        &mut output,
        &mut notes,
        &mut NoDisk::new(),
        &mut NoLink::new(),
        &mut MemClock::new(Vec::from_array(alloc, [1_700_000_000_000])?),
        &mut NoPatterns::new(),
    );
    let mut left = Vec::new(alloc);
    left.push(b'0'.wrapping_add(status.exit_code()))?;
    left.extend_from_slice(notes.bytes())?;
    left.push(b'|')?;
    left.extend_from_slice(output.bytes())?;
    Ok(left)
}

fn words_of(alloc: Global, words: &str) -> Result<Vec<String>, AllocError> {
    let mut list = Vec::new(alloc);
    for word in words.split(' ') {
        list.push(String::from_str(alloc, word)?)?;
    }
    Ok(list)
}

/// Whether a run leaves what its row says: `WORDS | INPUT | HOW -> STATUS | NOTE | OUTPUT`.
///
/// Texts are written as `text_of` reads them. HOW is `any` where the run is made three times, with
/// pieces of one byte, of seven, and of all; else the greatest piece, `all` or a number, and after
/// it `read K` or `write K` where the call of that number fails.
pub(crate) fn is_right(alloc: Global, row: &str) -> Result<bool, AllocError> {
    let Some((given, due)) = row.split_once(" -> ") else {
        return Ok(false);
    };
    let Some((words, rest)) = given.split_once(" | ") else {
        return Ok(false);
    };
    let Some((input, how)) = rest.split_once(" | ") else {
        return Ok(false);
    };
    let input = text_of(alloc, input)?;
    let due = due_of(alloc, due)?;
    for most in [1, 7, usize::MAX] {
        let how = match how {
            "any" => Some(pieces(most)),
            _ => how_of(how),
        };
        let Some(how) = how else {
            return Ok(false);
        };
        if left(alloc, words, &input, how)? != due {
            return Ok(false);
        }
    }
    Ok(true)
}

/// What HOW of a row says, where it isn't `any`.
fn how_of(text: &str) -> Option<How> {
    let (most, faults) = text.split_once(' ').unwrap_or((text, ""));
    let most = match most {
        "all" => usize::MAX,
        _ => most.parse().ok()?,
    };
    let fault = |word| match faults.strip_prefix(word) {
        Some(number) => number.parse().ok(),
        None => Some(NEVER),
    };
    let bad_read = fault("read ")?;
    let bad_write = fault("write ")?;
    Some(How {
        most,
        bad_read,
        bad_write,
    })
}

/// What a run has to leave by the part of its row after the arrow, in the form of `left`.
fn due_of(alloc: Global, due: &str) -> Result<Vec<u8>, AllocError> {
    let mut left = Vec::new(alloc);
    for (number, part) in due.split(" | ").enumerate() {
        match number {
            0 => left.extend_from_slice(part.as_bytes())?,
            1 => push_note(&mut left, part)?,
            _ => left.extend_from_slice(text_of(alloc, part)?.as_slice())?,
        }
    }
    Ok(left)
}

/// The line that says a note, nothing where there is none, and a bar.
fn push_note(left: &mut Vec<u8>, note: &str) -> Result<(), AllocError> {
    if note != "-" {
        left.extend_from_slice(b"vmsingle: ")?;
        left.extend_from_slice(note.as_bytes())?;
        left.push(b'\n')?;
    }
    left.push(b'|')?;
    Ok(())
}

/// The bytes that a text of a row stands for: `-` for none, `<S>` for the reply with the series S,
/// and `«N×T»` for N times the text T, in which a `#` stands for the number of the copy, from 0 on.
/// Else as `bytes_of` reads it.
pub(crate) fn text_of(alloc: Global, text: &str) -> Result<Vec<u8>, AllocError> {
    let mut bytes = Vec::new(alloc);
    for piece in text.split('«') {
        match piece.split_once('»') {
            Some((repeated, rest)) => {
                push_times(alloc, &mut bytes, repeated)?;
                push_text(alloc, &mut bytes, rest)?;
            }
            None => push_text(alloc, &mut bytes, piece)?,
        }
    }
    Ok(bytes)
}

fn push_text(alloc: Global, bytes: &mut Vec<u8>, text: &str) -> Result<(), AllocError> {
    if text == "-" {
        return Ok(());
    }
    for byte in bytes_of(alloc, text)?.as_slice() {
        match *byte {
            b'<' => bytes.extend_from_slice(HEAD.as_bytes())?,
            b'>' => bytes.extend_from_slice(TAIL.as_bytes())?,
            byte => bytes.push(byte)?,
        }
    }
    Ok(())
}

fn push_times(alloc: Global, bytes: &mut Vec<u8>, repeated: &str) -> Result<(), AllocError> {
    let (count, text) = repeated.split_once('×').unwrap_or(("0", ""));
    let text = bytes_of(alloc, text)?;
    for turn in 0..count.parse::<u64>().unwrap_or(0) {
        for byte in text.as_slice() {
            match *byte {
                b'#' => bytes.extend_from_slice(format!(in alloc; "{turn}")?.as_bytes())?,
                byte => bytes.push(byte)?,
            }
        }
    }
    Ok(())
}
