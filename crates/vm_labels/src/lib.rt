//! Label sets, and what is said of series by them: rows, filters and selectors.
//!
//! A label set is a list of names with values. No name stands twice, no value is empty, and the
//! names rise by their bytes, so that each set has one form. Contracts see a `Labels` as the list
//! of its pairs.
//!
//! Read `Labels` first, with `specs/Labels.antt`, which says what a label set is, how one is built
//! and in which order label sets are. `specs/Selected.antt` says what a `Selector` selects,
//! `specs/Bytes.antt` which bytes a label set has in a file, `specs/Broken.antt` where other bytes
//! break, and `specs/Text.antt` how a set is printed.
//!
//! It stands on `vm_base` for texts, lists, samples and limits, on `json` for strings in JSON and
//! on `memchr` for the bytes of a value that need an escape.
#![tactic(auto)]

mod build;
mod bytes;
mod change;
mod fault;
mod labels;
mod name;
mod pair;
mod row;
mod selector;
mod text;

pub use bytes::{no_set_begins_another, what_is_read_is_written, what_is_written_is_read};
pub use fault::{LabelFault, LimitFault, ReadFault};
pub use labels::Labels;
pub use name::{is_name, name_len};
pub use pair::Pair;
pub use row::{Batch, Row};
pub use selector::{Filter, FilterOp, Selector};
