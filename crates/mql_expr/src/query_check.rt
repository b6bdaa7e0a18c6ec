//! What is wrong with a query that was read.

ghost use Rattle.std.specs.Prelude.{◌≡◌};
ghost use Rattle.mql_expr.specs.Check.{query_faults, faults, faults_of, template_faults, call_faults, wrong_unless as faults_unless, call_fits as call_does_fit, operands_fit as operands_do_fit, arguments_fit as arguments_do_fit, may_be_from, may_be as argument_may_be, words_fit as words_do_fit, many_fits as many_does_fit, first_fault};
ghost use Rattle.mql_expr.specs.Names.{known_as};
ghost use Rattle.mql_expr.specs.Tree.{tree, trees_in, templates_in};

use crate::arguments::{kind_at, may_end};
use crate::expr::{Expr, Node, Template};
use crate::fault::CheckFault;
use crate::kinds::{is_of_kind, is_of_numbers, is_select, is_string};
use crate::names::Known;
use mql_lex::{Group, Many, Op};

/// Finds the first fault of a query whose templates were expanded. The parts of an expression come
/// before it, from left to right.
///
/// A call is of a function or an aggregate, with arguments as it takes them, and at most one group
/// on an aggregate alone. Windows and offsets stand on selectors, `group_left` and `group_right` on
/// arithmetic and comparisons, and strings only where a function or an aggregate takes one.
pub fn check(expr: &Expr) -> Result<(), CheckFault>
    ensures { result ≡ first_fault (query_faults (tree expr.now)) }
{
    check_parts(expr)?;
    wrong_unless(!is_string(expr), expr.at)
}

/// Finds the first fault of an expression and its parts.
#[cycle(check)]
#[tactic(auto, using(crate::proofs::FaultLaws::in_order))]
fn check_parts(expr: &Expr) -> Result<(), CheckFault>
    ensures { result ≡ first_fault (faults (tree expr.now)) }
{
    match &expr.node {
        Node::Number(_) | Node::Str(_) | Node::Select { .. } => Ok(()),
        Node::Ranged { inner, .. } => {
            check_parts(inner.get())?;
            wrong_unless(is_select(inner.get()), expr.at)
        }
        Node::Call {
            name,
            args,
            before,
            after,
            keep,
        } => {
            check_args(args.as_slice())?;
            let Some(known) = Known::of(name.as_str()) else {
                return Err(CheckFault::UnknownFunction { at: expr.at });
            };
            let fits = call_fits(known, args.as_slice(), before, after, *keep);
            wrong_unless(fits, expr.at)
        }
        Node::Binary {
            op,
            matching,
            left,
            right,
            ..
        } => {
            check_parts(left.get())?;
            check_parts(right.get())?;
            let fits = operands_fit(*op, matching.many, left.get(), right.get());
            wrong_unless(fits, expr.at)
        }
        Node::Negate(inner) => {
            check_parts(inner.get())?;
            wrong_unless(!is_string(inner.get()), expr.at)
        }
        Node::With { templates, body } => {
            check_templates(templates.as_slice())?;
            check_parts(body.get())
        }
    }
}

#[cycle(check)]
fn check_args(args: &[Expr]) -> Result<(), CheckFault>
    ensures { result ≡ first_fault (faults_of (trees_in args.now)) }
{
    for arg in args {
        check_parts(arg)?;
    }
    Ok(())
}

#[cycle(check)]
fn check_templates(templates: &[Template]) -> Result<(), CheckFault>
    ensures { result ≡ first_fault (template_faults (templates_in templates.now)) }
{
    for template in templates {
        check_parts(&template.body)?;
    }
    Ok(())
}

fn wrong_unless(fits: bool, at: u64) -> Result<(), CheckFault>
    ensures { result ≡ first_fault (faults_unless fits at) }
{
    if fits {
        Ok(())
    } else {
        Err(CheckFault::WrongArguments { at })
    }
}

/// Whether a call may have these arguments, groups and `keep_metric_names`.
fn call_fits(
    known: Known,
    args: &[Expr],
    before: &Option<Group>,
    after: &Option<Group>,
    keep: bool,
) -> bool
    ensures { result ≡ call_does_fit known (trees_in args.now) before.now after.now keep }
{
    arguments_fit(known, args) && words_fit(known, before, after, keep)
}

#[tactic(auto, using(crate::proofs::TreeLaws::count_is))]
fn arguments_fit(known: Known, args: &[Expr]) -> bool
    ensures { result ≡ arguments_do_fit known (trees_in args.now) }
{
    may_end(known, args.len()) && kinds_fit(known, args)
}

/// Whether each argument is of the kind of its place.
fn kinds_fit(known: Known, args: &[Expr]) -> bool
    ensures { result ≡ may_be_from known 0 (trees_in args.now) }
{
    for (index, arg) in args.iter().enumerate() {
        if !may_be(known, index, arg) {
            return false;
        }
    }
    true
}

fn may_be(known: Known, index: usize, arg: &Expr) -> bool
    ensures { result ≡ argument_may_be known index (tree arg.now) }
{
    match kind_at(known, index) {
        Some(kind) => is_of_kind(kind, arg),
        None => false,
    }
}

/// Whether the groups and `keep_metric_names` may stand where they do.
fn words_fit(known: Known, before: &Option<Group>, after: &Option<Group>, keep: bool) -> bool
    ensures { result ≡ words_do_fit known before.now after.now keep }
{
    match known {
        Known::OfGroup(_) => !(before.is_some() && after.is_some()) && !keep,
        _ => !(before.is_some() || after.is_some()),
    }
}

/// Whether these may be the operands of an operator.
fn operands_fit(op: Op, many: Many, left: &Expr, right: &Expr) -> bool
    ensures { result ≡ operands_do_fit op many (tree left.now) (tree right.now) }
{
    !is_string(left) && !is_string(right) && many_fits(op, many)
}

/// Whether `group_left` or `group_right`, if one is written, may stand after the operator.
fn many_fits(op: Op, many: Many) -> bool
    ensures { result ≡ many_does_fit op many }
{
    match many {
        Many::One => true,
        _ => is_of_numbers(op),
    }
}
