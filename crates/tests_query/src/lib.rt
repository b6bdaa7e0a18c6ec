//! Tests of what reads the text of a query: tokens, the parts that don't nest, and whole queries.
//!
//! Each file has the tables of one crate. `test_rows` reads what their rows write.
#![tactic(auto)]

#[cfg(test)]
mod fault_rows;
#[cfg(test)]
mod lex;
#[cfg(test)]
mod lists;
#[cfg(test)]
mod queries;
#[cfg(test)]
mod query_rows;
