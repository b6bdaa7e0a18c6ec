//! What an expression may stand for as an argument.

ghost use Rattle.std.specs.Prelude.{◌≡◌};
ghost use Rattle.mql_expr.specs.Kinds.{is_string as is_string_tree, is_select as is_select_tree, is_selector as is_selector_tree, is_label_name as is_label_name_tree, counts as number_counts, is_count as is_count_tree, is_positive as is_positive_tree, is_of_numbers as op_of_numbers, is_number_call, is_numeric as is_numeric_tree, are_numeric as are_numeric_trees, is_of_kind as tree_is_of_kind};
ghost use Rattle.mql_expr.specs.Names.{known_as};
ghost use Rattle.mql_expr.specs.Tree.{tree, trees_in};

use crate::arguments::Kind;
use crate::expr::{Expr, Node};
use crate::names::{Function, Known};
use mql_lex::Op;
use vm_decimal::Dec;
use vm_labels::is_name;

pub(crate) fn is_of_kind(kind: Kind, expr: &Expr) -> bool
    ensures { result ≡ tree_is_of_kind kind (tree expr.now) }
{
    match kind {
        Kind::Series => !is_string(expr),
        Kind::Selector => is_selector(expr),
        Kind::Count => is_count(expr),
        Kind::Positive => is_positive(expr),
        Kind::LabelName => is_label_name(expr),
        Kind::Quoted => is_string(expr),
        Kind::Numeric => is_numeric(expr),
    }
}

pub(crate) fn is_string(expr: &Expr) -> bool
    ensures { result ≡ is_string_tree (tree expr.now) }
{
    matches!(&expr.node, Node::Str(_))
}

/// Whether it is a selector without window and offset.
pub(crate) fn is_select(expr: &Expr) -> bool
    ensures { result ≡ is_select_tree (tree expr.now) }
{
    matches!(&expr.node, Node::Select { .. })
}

fn is_selector(expr: &Expr) -> bool
    ensures { result ≡ is_selector_tree (tree expr.now) }
{
    match &expr.node {
        Node::Ranged { inner, .. } => is_select(inner.get()),
        _ => is_select(expr),
    }
}

/// Whether it is a string that is a label's name.
fn is_label_name(expr: &Expr) -> bool
    ensures { result ≡ is_label_name_tree (tree expr.now) }
{
    match &expr.node {
        Node::Str(text) => is_name(text.as_str().as_bytes()),
        _ => false,
    }
}

fn is_count(expr: &Expr) -> bool
    ensures { result ≡ is_count_tree (tree expr.now) }
{
    match &expr.node {
        Node::Number(value) => counts(*value),
        _ => false,
    }
}

/// Whether it is a whole number from 0 to 2^32 - 1.
fn counts(value: Dec) -> bool
    ensures { result ≡ number_counts value }
{
    match Dec::of(4_294_967_296, 0) {
        Some(limit) => value >= Dec::ZERO && value.floor() == value && value < limit,
        None => false,
    }
}

fn is_positive(expr: &Expr) -> bool
    ensures { result ≡ is_positive_tree (tree expr.now) }
{
    match &expr.node {
        Node::Number(value) => Dec::ZERO < *value,
        _ => false,
    }
}

/// Whether it is an expression of numbers alone.
#[cycle(numeric)]
fn is_numeric(expr: &Expr) -> bool
    ensures { result ≡ is_numeric_tree (tree expr.now) }
{
    match &expr.node {
        Node::Number(_) => true,
        Node::Call { name, args, .. } => is_numeric_call(Known::of(name.as_str()), args.as_slice()),
        Node::Binary {
            op,
            left,
            right,
            ..
        } => is_of_numbers(*op) && is_numeric(left.get()) && is_numeric(right.get()),
        Node::Negate(inner) => is_numeric(inner.get()),
        _ => false,
    }
}

#[cycle(numeric)]
fn is_numeric_call(known: Option<Known>, args: &[Expr]) -> bool
    ensures { result ≡ is_number_call known (are_numeric_trees (trees_in args.now)) }
{
    match known {
        Some(Known::OfPoints(Function::Time | Function::Scalar)) => true,
        Some(
            Known::OfPoints(
                Function::Abs
                | Function::Sgn
                | Function::Ceil
                | Function::Floor
                | Function::Round
                | Function::Clamp
                | Function::ClampMin
                | Function::ClampMax,
            ),
        ) => are_numeric(args),
        _ => false,
    }
}

#[cycle(numeric)]
fn are_numeric(exprs: &[Expr]) -> bool
    ensures { result ≡ are_numeric_trees (trees_in exprs.now) }
{
    for expr in exprs {
        if !is_numeric(expr) {
            return false;
        }
    }
    true
}

/// Whether an operator makes numbers of numbers: arithmetic and comparisons.
pub(crate) fn is_of_numbers(op: Op) -> bool
    ensures { result ≡ op_of_numbers op }
{
    !matches!(
        op,
        Op::Default | Op::If | Op::IfNot | Op::Or | Op::And | Op::Unless
    )
}
