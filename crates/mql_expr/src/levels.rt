//! How closely the parts of a query bind.

ghost use Rattle.std.specs.Prelude.{◌≡◌, ◌≤◌};
ghost use Rattle.mql_expr.specs.Levels.{level_of as level, level_of_op as op_level};
ghost use Rattle.mql_expr.specs.Tree.{tree};

use crate::expr::{Expr, Node};
use mql_lex::Op;

/// How closely an expression binds.
pub(crate) fn level_of(expr: &Expr) -> u8
    ensures { result ≡ level (tree expr.now) }
{
    match &expr.node {
        Node::With { .. } => 0,
        Node::Binary { op, .. } => level_of_op(*op),
        Node::Negate(_) => 8,
        Node::Ranged { .. } => 9,
        _ => 10,
    }
}

/// How closely an operator binds: 1, the loosest, for `default`, then `if` and `ifnot`, `or`, `and`
/// and `unless`, comparisons, `+` and `-`, and 7 for `*`, `/` and `%`. (MetricsQL, "Operator
/// precedence")
pub fn level_of_op(op: Op) -> u8
    ensures value { result ≡ op_level op }
    ensures high { result ≤ 7 }
{
    match op {
        Op::Default => 1,
        Op::If | Op::IfNot => 2,
        Op::Or => 3,
        Op::And | Op::Unless => 4,
        Op::Equal | Op::Differs | Op::AtMost | Op::AtLeast | Op::Below | Op::Above => 5,
        Op::Add | Op::Sub => 6,
        Op::Mul | Op::Div | Op::Rem => 7,
    }
}
