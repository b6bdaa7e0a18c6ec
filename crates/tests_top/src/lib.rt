//! Tests of the commands, over objects in memory, and of the adapters of the system.
//!
//! `commands` runs the program as each row of a table says, `trial` reads such a row, and the rows
//! stand in files of their own. `test_rows` reads the escapes in them.
#![tactic(auto)]

#[cfg(test)]
mod commands;
#[cfg(test)]
mod last_rows;
#[cfg(test)]
mod replay_rows;
#[cfg(test)]
mod system;
#[cfg(test)]
mod trial;
