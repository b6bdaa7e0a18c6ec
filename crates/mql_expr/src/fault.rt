//! What may be wrong with a query that was read.

/// Why a query has no meaning. Places count bytes of its text from 0.
#[derive(Clone, Copy, Debug, PartialEq, Eq)]
pub enum CheckFault {
    /// A call of no function and of no aggregate, at the place of the call.
    UnknownFunction { at: u64 },
    /// A call, an operator, a window or an offset on other parts than it takes, at its place, or a
    /// string in place of a query.
    WrongArguments { at: u64 },
}
