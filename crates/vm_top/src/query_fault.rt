//! What can be wrong with a query of a script.

/// Why a query asks for nothing.
#[derive(Clone, Copy, Debug, PartialEq, Eq)]
pub enum QueryFault {
    /// The range of time ends after 2^48 - 1 ms.
    BadRange,
    /// The expression is of a form that isn't read yet.
    NotBuilt,
}
