//! Patterns over the library `regex`, held against whole values.
//!
//! Read `specs/Patterns.antt` first: it says which texts are patterns, which values they match and
//! what their groups are. `MemPatterns` builds them, and `MemPattern` is one.
//!
//! It stands on `vm_outside` for the traits, and on `regex` with its two crates for the syntax.
#![tactic(auto)]

mod mem_pattern;
mod mem_patterns;

pub use mem_pattern::MemPattern;
pub use mem_patterns::MemPatterns;
