//! Tests of what reads lines: lines of an input, the text format, JSON, and the replay script.
//!
//! Each file has the tables of one crate. `test_rows` reads what their rows write.
#![tactic(auto)]

#[cfg(test)]
mod json;
#[cfg(test)]
mod jsonline;
#[cfg(test)]
mod jsonline_rows;
#[cfg(test)]
mod lines;
#[cfg(test)]
mod printed;
#[cfg(test)]
mod promtext;
#[cfg(test)]
mod script;
