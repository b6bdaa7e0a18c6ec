//! Tests of what a part file is made of: columns, blocks, the label index, series, and parts.
//!
//! Each file has the tables of one crate. `test_rows` reads what their rows write as bytes, and
//! `rows` what they write as numbers and as samples.
#![tactic(auto)]

#[cfg(test)]
mod block;
#[cfg(test)]
mod codec;
#[cfg(test)]
mod dedup;
#[cfg(test)]
mod files;
#[cfg(test)]
mod index;
#[cfg(test)]
mod laws;
#[cfg(test)]
mod part;
#[cfg(test)]
mod rows;
#[cfg(test)]
mod series;
