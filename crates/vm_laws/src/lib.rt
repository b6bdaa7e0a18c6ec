//! Laws of the store's lines: a series that is written as a line of JSON is read again.
//!
//! `print_series` of `vm_jsonline` writes such a line and `read_line` reads it. There is no code
//! here: the law holds of what those two are said to do, and no function needs it for its own
//! proof. So it stands above both, and is proved once.
//!
//! Begin with `what_is_written_is_read`. `specs/Written.antt` says which series can be read again.
#![tactic(auto)]

mod laws;

pub use laws::what_is_written_is_read;
