//! The program's one call: what the words of a command line ask for, over the objects that `main`
//! hands in.
//!
//! `run_words` carries the theorem of the whole program in its clauses: the answer is the
//! definition's over the whole input, and each other status has its cause. Read it first, and then
//! the definitions that it cites: `specs/Words.antt`, `specs/Statuses.antt` and
//! `specs/Promise.antt`; for `last` `specs/Last.antt`, `specs/Rows.antt` and `specs/Reply.antt`;
//! for `replay` `specs/Script.antt`, `specs/Replay.antt` and `specs/Printed.antt`. What a line says
//! is defined in `vm_promtext` and `vm_jsonline`, what a script's line says in `vm_script`, what
//! the lines of an input are in `vm_lines`, and what a query gives and a machine does in
//! `vm_machine`.
//!
//! It stands on these crates, on `vm_outside` for what it meets of the world, on `vm_labels` and
//! `vm_decimal` for label sets and numbers, on `itoa` and `arrayvec` for what it prints, and on
//! `thiserror` for the texts of its faults.
#![tactic(auto)]

mod act;
mod body;
mod command;
mod fault;
mod input_lines;
mod last;
mod laws;
mod note;
mod play;
mod printed;
mod program;
mod query_fault;
mod reply;
mod response;
mod short;
mod status;
mod words;

pub use fault::Fault;
pub use laws::{a_script_prints_one_text, lines_mean_one_thing, one_line_is_the_first_bad_one};
pub use program::run_words;
pub use status::Status;
