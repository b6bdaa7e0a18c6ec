//! One line of JSON import, read exactly: its rows, or the place where it goes wrong.
//!
//! `specs/Series.antt` says what a line comes to whose JSON is known, and `specs/Means.antt` what a
//! line means. `docs/lines.md` says the same for people.
//!
//! Begin with `JsonLine` and `read_line`. A line is first read whole by `vm_json`, which says where
//! it is no JSON. Then its parts are taken where they lie: `parts` finds members and items,
//! `strings` reads strings, `values` labels, values and times, and `series` makes rows of them.
//!
//! `print_series` writes a line.
//!
//! It stands on `vm_json` for the grammar, on `vm_labels` for label sets and rows, on `vm_decimal`
//! for values, on `memchr` to find backslashes and on `itoa` for digits.
#![tactic(auto)]

mod line;
mod parts;
mod print;
mod series;
mod stop;
mod strings;
mod values;

pub use line::{JsonLine, read_line};
pub use print::print_series;
