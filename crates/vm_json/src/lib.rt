//! JSON texts: whether bytes are one, and the first place where they are none. (RFC 8259)
//!
//! `specs/Grammar.antt` says what a JSON text is and what it says, apart from how it is read here.
//!
//! Begin with `first_wrong`, which reads a text once, a byte at a time, with a bit for each bracket
//! that is open. `phase` has the table of its moves, `string_machine` those within strings,
//! `nesting` the brackets.
//!
//! It stands on `vm_base` for first wrong places.
#![tactic(auto)]

mod nesting;
mod phase;
mod reader;
mod string_machine;

pub use nesting::MAX_NESTING;
pub use reader::first_wrong;
