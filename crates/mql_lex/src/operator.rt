//! The operators between two expressions.

/// An operator. (PromQL, "Operators"; MetricsQL adds `default`, `if` and `ifnot`)
#[derive(Clone, Copy, Debug, PartialEq, Eq)]
pub enum Op {
    /// `default`
    Default,
    /// `if`
    If,
    /// `ifnot`
    IfNot,
    /// `or`
    Or,
    /// `and`
    And,
    /// `unless`
    Unless,
    /// `==`
    Equal,
    /// `!=`
    Differs,
    /// `<=`
    AtMost,
    /// `>=`
    AtLeast,
    /// `<`
    Below,
    /// `>`
    Above,
    /// `+`
    Add,
    /// `-`
    Sub,
    /// `*`
    Mul,
    /// `/`
    Div,
    /// `%`
    Rem,
}
