//! How the tables of tests write bytes as text. It stands on std alone, and only crates of tests
//! use it.
//!
//! A table is one text, with a row a line. What a line can't hold is escaped, and `bytes_of` gives
//! the bytes that are meant. `repeated` also takes a text in which a piece stands many times.
#![tactic(auto)]

mod repeats;

pub use repeats::repeated;
use std::alloc::{AllocError, Global};

/// What the next byte of a text is part of.
#[derive(Clone, Copy)]
enum Within {
    /// Nothing.
    Plain,
    /// An escape, of which the backslash was read.
    Escape,
    /// `\x` and its first digit.
    High,
    /// `\x` and its second digit, after a first one of this value.
    Low(u8),
}

/// The bytes that a text stands for: `\n`, `\r`, `\t`, `\\` and `\xHH` with two digits of base 16
/// for one byte each, and any other byte for itself.
pub fn bytes_of(alloc: Global, text: &str) -> Result<Vec<u8>, AllocError> {
    let mut bytes = Vec::new(alloc);
    let mut within = Within::Plain;
    for byte in text.as_bytes() {
        let (meant, next) = step(within, *byte);
        if let Some(meant) = meant {
            bytes.push(meant)?;
        }
        within = next;
    }
    Ok(bytes)
}

/// The byte that is meant once this one is read, where there is one, and what follows it.
fn step(within: Within, byte: u8) -> (Option<u8>, Within) {
    match within {
        Within::Plain => match byte {
            b'\\' => (None, Within::Escape),
            _ => (Some(byte), Within::Plain),
        },
        Within::Escape => match byte {
            b'x' => (None, Within::High),
            _ => (Some(escaped(byte)), Within::Plain),
        },
        Within::High => (None, Within::Low(digit(byte))),
        Within::Low(high) => (
            Some(high.wrapping_mul(16).wrapping_add(digit(byte))),
            Within::Plain,
        ),
    }
}

/// The byte that stands after a backslash for another one, or for itself.
fn escaped(byte: u8) -> u8 {
    match byte {
        b'n' => b'\n',
        b'r' => b'\r',
        b't' => b'\t',
        _ => byte,
    }
}

/// The value of a digit of base 16.
fn digit(byte: u8) -> u8 {
    match byte {
        b'0'..=b'9' => byte - b'0',
        b'a'..=b'f' => byte - b'a' + 10,
        _ => 0,
    }
}
