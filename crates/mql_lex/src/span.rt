//! A length of time in a query.

/// What a duration writes: some milliseconds and some steps of the query. `5m` is 300,000 ms, and
/// `2i` is two steps, whatever the step is. An offset may be below zero.
///
/// (MetricsQL, "MetricsQL features": durations may have the suffix `i`, the step)
#[derive(Clone, Copy, Debug, PartialEq, Eq)]
pub struct Span {
    /// Milliseconds.
    pub ms: i64,
    /// Steps of the query.
    pub steps: i64,
}
