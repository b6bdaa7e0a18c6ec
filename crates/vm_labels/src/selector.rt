//! Which series a query speaks of. (MetricsQL, "filters")

use vm_base::{List, Text};

/// How a filter compares a label's value with its text.
#[derive(Clone, Copy, Debug, PartialEq, Eq)]
pub enum FilterOp {
    /// `=`: the value is the text.
    Equal,
    /// `!=`: it isn't.
    Differs,
    /// `=~`: the text is a pattern that matches the value from end to end.
    Matches,
    /// `!~`: it doesn't match.
    MatchesNot,
}

/// A condition on the value of one label. A label that isn't there has the empty value.
#[derive(Debug, Drop)]
pub struct Filter {
    /// The name of the label.
    pub name: Text,
    /// How the label's value is compared.
    pub op: FilterOp,
    /// The text that it is compared with.
    pub value: Text,
}

/// Lists of filters. A series is selected where it meets all filters of some list.
#[derive(Debug, Drop)]
pub struct Selector {
    /// The lists of filters.
    pub lists: List<List<Filter>>,
}
