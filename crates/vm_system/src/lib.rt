//! The edge of the program: the system's streams, clock and command line under the traits of
//! `vm_outside`.
//!
//! `ReaderSource`, `WriterSink` and `SystemClock` tell contracts no content, since no proof knows
//! what the system gives and takes; they are proved for their causes alone. So each stays a few
//! lines long, and all that the program decides stands in `vm_top` and the crates below it. `words`
//! reads the command line.
//!
//! It stands on `vm_outside` for the traits.
#![tactic(auto)]

mod command_line;
mod reader_source;
mod system_clock;
mod writer_sink;

pub use command_line::words;
pub use reader_source::ReaderSource;
pub use system_clock::SystemClock;
pub use writer_sink::WriterSink;

/// How often a call on a stream is tried that a signal interrupts each time.
const TRIES: u32 = 64;
