//! Tests of what the other crates stand on: small types, numbers, label sets, patterns, and objects
//! in memory.
//!
//! Each file has the tables of one crate. `test_rows` reads what their rows write.
#![tactic(auto)]

#[cfg(test)]
mod arithmetic_rows;
#[cfg(test)]
mod base;
#[cfg(test)]
mod decimal;
#[cfg(test)]
mod labels;
#[cfg(test)]
mod outside;
#[cfg(test)]
mod patterns;
#[cfg(test)]
mod sample_rows;
#[cfg(test)]
mod selectors;
