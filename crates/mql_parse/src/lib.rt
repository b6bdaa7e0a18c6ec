//! Queries, from their tokens.
//!
//! Begin with `parse`. It follows the machine of `specs/Machine.antt`, one token a `step`, over a
//! `Stack` of what is open. What a query is stands apart from that in `specs/Grammar.antt`, and
//! what its faults are in `specs/Faults.antt`; `laws` has that machine and grammar agree.
//!
//! It stands on `mql_lex` for tokens, on `mql_lists` for the parts of a query that don't nest, on
//! `mql_expr` for expressions, on `vm_decimal` for numbers and on `vm_base` for lists and texts.
#![tactic(auto)]

mod duration;
mod fault;
mod joining;
mod laws;
mod measuring;
mod naming;
mod opening;
mod operand;
mod parse_fault;
mod parser;
mod reducing;
mod stack;
mod state;
mod step;
mod templating;
mod wanted;

pub use fault::Wrong;
pub use laws::{expressions_are_read, words_are_one_expression, wrong_words_are_named};
pub use parse_fault::ParseFault;
pub use parser::parse;
