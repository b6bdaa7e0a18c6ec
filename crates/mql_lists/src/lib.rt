//! The words of a query, and the parts of it that do not nest: names in parentheses, the parameters
//! of a template, and what stands in the braces of a selector.
//!
//! `class_of` says what a token is to the language. `name_text` and `unquote` give what a name and
//! a string say. `NamesReader`, `ParamsReader` and `BracesReader` each read the words after a
//! bracket, one token a step, up to the bracket that closes it, so that a parser can go on with
//! them as a part of its own state.
//!
//! Begin with `specs/Grammar.antt`, which says what these parts are, apart from how they are read,
//! and with `specs/Classes.antt`, the tables of the words. `laws` states that the readers read the
//! grammar and nothing else.
//!
//! It stands on `mql_lex` for tokens, on `mql_expr` for items and parameters, on `vm_labels` for
//! filters and on `vm_base` for lists and texts.
#![tactic(auto)]

mod braces;
mod class;
mod laws;
mod names;
mod params;
mod progress;
mod role;
mod word;

pub use braces::BracesReader;
pub use class::{Class, class_of, filter_op};
pub use laws::{braces_are_read, names_are_read, params_are_read};
pub use names::NamesReader;
pub use params::ParamsReader;
pub use progress::Progress;
pub use word::{name_text, unquote};
