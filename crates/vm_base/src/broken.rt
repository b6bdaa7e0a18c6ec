//! Where bytes leave their grammar.

/// Bytes that leave their grammar.
#[derive(Clone, Copy, Debug, PartialEq, Eq)]
pub struct Broken {
    /// The place of the first fault, counted in bytes from 0.
    pub at: u64,
}
