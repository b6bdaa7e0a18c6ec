//! The lines of an input, one after the other, in bounded memory.
//!
//! An input is split at line feeds, and one carriage return is dropped at a line's end.
//! `LineReader` takes big pieces from a `Source` and shows one line at a time where it lies in the
//! buffer. A line of more than `MAX_IMPORT_LINE` bytes is told and not shown: its bytes are let go
//! as they come.
//!
//! Read `specs/Lines.antt` first, which says what the lines of an input are, then
//! `specs/Reading.antt` and `LineReader::advance`. Laws for callers' proofs stand in
//! `proofs/LineLaws.antt`.
//!
//! It stands on `vm_outside` for `Source`, on `vm_base` for the limits and on `memchr` for line
//! feeds.
#![tactic(auto)]

mod fault;
mod feed;
mod held;
mod reader;
mod step;

pub use fault::LineFault;
pub use reader::LineReader;
pub use step::Step;
