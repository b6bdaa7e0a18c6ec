//! Laws of a query's canonical text: it is read back as the same query, and names it.
//!
//! `print` of `mql_expr` writes that text and `parse` of `mql_parse` reads it. No body stands here:
//! the laws hold of what those two are said to do, and no function needs them for its own proof. So
//! they stand above both, and are proved once.
//!
//! Begin with `what_is_printed_is_read_back`. `specs/ReadBack.antt` says when two queries are the
//! same, and which of them a text can say; `specs/Lexed.antt` which words a text has.
#![tactic(auto)]

mod laws;

pub use laws::{
    canonical_text_is_one_query, what_is_printed_is_its_words, what_is_printed_is_read_back,
};
