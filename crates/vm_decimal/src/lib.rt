//! Exact decimal numbers: what is calculated with them, and how they are read and written.
//!
//! A number is counted in units of 10^-1000, so that each one is a whole number: that is what
//! contracts see of a `Dec`. Inside it are a sign, a size and an exponent in normal form.
//!
//! Read `Dec` first, whose calls give the exact number or `Range`; `specs/Dec.antt` has the limits
//! and `specs/Arithmetic.antt` what is calculated. Then `read`, and `read_sample`, which rounds to
//! 18 digits. How a number is written is defined in `specs/NumberText.antt`. Which texts are
//! numbers is the grammar of `specs/Spelled.antt`, how they are rounded stands in
//! `specs/Rounded.antt`, and what the two calls answer in `specs/DecText.antt` and
//! `specs/SampleText.antt`. Inside, `quick` reads what most values are, and `reader` any number,
//! one byte at a time.
//!
//! It stands on `vm_base` for `Sample`, the normal form and first wrong places, on `itoa` for
//! digits and on `arrayvec` for a text of bounded length.
#![tactic(auto)]

mod dec;
mod dec_text;
mod division;
mod exact;
mod leading;
mod level;
mod number_machine;
mod number_text;
mod order;
mod parts;
mod product;
mod quick;
mod reader;
mod sample_text;
mod sum;
mod whole;
mod words;

pub use dec::{Dec, Range};
pub use dec_text::read;
pub use sample_text::{NumFault, SampleText, read_sample};
