//! Which labels an aggregate keeps, and by which labels an operator matches lines.

use vm_base::{List, Text};

/// The groups of an aggregate. (PromQL, "Aggregation operators")
#[derive(Debug, Drop)]
pub struct Group {
    /// Whether it is `by`, which keeps these labels, and not `without`, which drops them.
    pub by: bool,
    /// The names of the labels.
    pub names: List<Text>,
}

/// How an operator matches the lines of its sides. (PromQL, "Vector matching")
#[derive(Debug, Drop)]
pub struct Matching {
    /// By which labels lines match.
    pub kind: MatchKind,
    /// The names after `on` or `ignoring`.
    pub names: List<Text>,
    /// Which side may have many lines that match one of the other.
    pub many: Many,
    /// The names after `group_left` or `group_right`: labels that are taken from the other side.
    pub extra: List<Text>,
}

/// By which labels lines match.
#[derive(Clone, Copy, Debug, PartialEq, Eq)]
pub enum MatchKind {
    /// By all, where neither word is written.
    All,
    /// `on`: by those that are named.
    On,
    /// `ignoring`: by all but those that are named.
    Ignoring,
}

/// Which side may have many lines that match one of the other.
#[derive(Clone, Copy, Debug, PartialEq, Eq)]
pub enum Many {
    /// Neither.
    One,
    /// `group_left`: the left.
    Left,
    /// `group_right`: the right.
    Right,
}
