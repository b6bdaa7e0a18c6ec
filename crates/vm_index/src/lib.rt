//! The label index of a part: which of its series have a label.
//!
//! A part holds its series in label order, and the series with the n-th label set is series n. Its
//! label table spells these sets one after the other, and its **postings** say of each name and of
//! each value of a name which series have it. Both are bytes of the part's file.
//!
//! Begin with `Index`: `build` makes one from label sets, `read` takes one from bytes or says at
//! which place they break, and `lookup`, `names` and `values` answer from it without a pass over
//! the series. `and`, `or` and `minus` put what was found together; they walk two rising lists
//! once.
//!
//! `specs/Index.antt` says what is found for label sets, `specs/Bytes.antt` which bytes spell them,
//! and `specs/Reading.antt` where other bytes break. It stands on `vm_labels` for label sets and
//! their bytes.
#![tactic(auto)]

mod bytes;
mod entries;
mod fault;
mod index;
mod laws;
mod lookup;
mod names;
mod numbers;
mod posting;
mod read;

pub use fault::IndexFault;
pub use index::Index;
pub use laws::{a_table_breaks_at_one_place, a_table_says_one_list};
pub use numbers::{and, minus, or};
pub use posting::Posting;
