//! One line of the Prometheus text format 0.0.4, read exactly: its row, or the place where it goes
//! wrong.
//!
//! `specs/Grammar.antt` says what a line is and what it writes, apart from how it is read here, and
//! `specs/Means.antt` what a line means. `docs/lines.md` says the same for people.
//!
//! Begin with `Line` and `read_line`, which reads a line by its parts from left to right. Each part
//! has a file: `tokens`, `quoted` with `utf8` and `escapes`, `labels` and `row`. Where a part goes
//! wrong it says how many bytes of the line are left there, so that no part has to know where in
//! the line it stands.
//!
//! It stands on `vm_labels` for names, label sets and rows, on `vm_decimal` for the value, and on
//! `memchr` to find the quote that ends a label's value.
#![tactic(auto)]

mod escapes;
mod labels;
mod line;
mod quoted;
mod row;
mod stop;
mod tokens;
mod utf8;

pub use line::{Line, read_line};
