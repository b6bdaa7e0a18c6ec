//! A query as a tree, and what is said of such trees.
//!
//! Begin with `Expr`. Contracts see one as a `Tree` of plain data: `tree` in `specs/Tree.antt`.
//!
//! It stands on `mql_lex` for operators, groups and spans, on `vm_labels` for filters, on
//! `vm_decimal` for numbers and on `vm_base` for lists and texts.
#![tactic(auto)]

mod arguments;
mod build;
mod expr;
mod fault;
mod item;
mod kinds;
mod levels;
mod names;
mod print_parts;
mod query_check;
mod query_text;
mod span_text;

pub use arguments::{Kind, Rest};
pub use build::{Called, Joint};
pub use expr::{Expr, Node, Param, Template};
pub use fault::CheckFault;
pub use item::Item;
pub use levels::level_of_op;
pub use names::{Aggregate, Function, Known, Rollup};
pub use query_check::check;
pub use query_text::print;
pub use span_text::Unit;
