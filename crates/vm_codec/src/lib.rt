//! Columns of whole numbers as bytes: how the times and the values of a block are stored.
//!
//! A column is its first value, which stands elsewhere, and the bytes of this crate for the
//! others. A `Coding` says what the bytes are: nothing, one difference, the differences, or their
//! differences. Each of these is an integer in groups of 7 bits, and has one spelling.
//!
//! Read `Coding` first, then `encode` and `decode`. `specs/Coding.antt` says which bytes are a
//! column of which values, and where bytes that are none break.
//!
//! It stands on `vm_base` for `Broken`. No call takes memory.
#![tactic(auto)]

mod bounds;
mod choosing;
mod coding;
mod integer;
mod laws;
mod reading;
mod writing;
mod zigzag;

pub use bounds::are_in_bounds;
pub use choosing::choose;
pub use coding::Coding;
pub use laws::{bytes_break_at_one_place, no_column_begins_another};
pub use reading::decode;
pub use writing::{MAX_COLUMN, MAX_INTEGER, encode};
