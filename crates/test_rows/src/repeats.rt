//! Long texts that are written short.

use crate::bytes_of;
use std::alloc::{AllocError, Global};

/// The bytes that a text with repeats stands for. It is cut at each `|`. A piece with a number and
/// `*` in front stands that many times, any other piece once: `3*ab|c` is `abababc`. Each piece may
/// have the escapes of `bytes_of`.
pub fn repeated(alloc: Global, text: &str) -> Result<Vec<u8>, AllocError> {
    let mut bytes = Vec::new(alloc);
    for part in text.split('|') {
        push_part(alloc, part, &mut bytes)?;
    }
    Ok(bytes)
}

/// Pushes one piece as often as it is meant.
fn push_part(alloc: Global, part: &str, out: &mut Vec<u8>) -> Result<(), AllocError> {
    let (count, piece) = counted(part);
    let piece = bytes_of(alloc, piece)?;
    if let [byte] = piece.as_slice() {
        return out.resize(out.len().saturating_add(count), *byte);
    }
    for _ in 0..count {
        out.extend_from_slice(&piece)?;
    }
    Ok(())
}

/// How often a piece stands, and the piece.
fn counted(part: &str) -> (usize, &str) {
    if let Some((count, piece)) = part.split_once('*')
        && let Ok(count) = count.parse()
    {
        return (count, piece);
    }
    (1, part)
}
