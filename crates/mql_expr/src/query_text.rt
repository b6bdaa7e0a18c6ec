//! The canonical text of a query.

ghost use Rattle.std.specs.Prelude.{◌≡◌, ◌∷◌, ◌++◌, OnOk, OnErr};
ghost use Rattle.mql_expr.specs.Canonical.{blank, canonical, text_of, pieces, placed, comma_before, arguments, bindings, binding, in_parentheses};
ghost use Rattle.mql_expr.specs.Tree.{tree, trees_in, templates_in, ranged, negate};

use crate::expr::{Expr, Node, Template};
use crate::levels::{level_of, level_of_op};
use crate::print_parts::{
    put_after, put_before, put_call_name, put_keep, put_offset, put_operator, put_params,
    put_select, put_string, put_text, put_window,
};
use mql_lex::Span;
use std::alloc::AllocError;

/// Appends the canonical text of a query to `out`, which stays as it was where memory runs out.
///
/// Parentheses stand only where they are needed, words of the language and names of functions and
/// aggregates are in lower case but for `WITH`, and blanks stand round operators and after commas
/// between arguments. (MetricsQL, "Operators" and "WITH templates")
pub fn print(expr: &Expr, out: &mut Vec<u8>) -> Result<(), AllocError>
    ensures ok { OnOk result (out.new.items ≡ out.old.items ++ canonical (tree expr.now)) }
    ensures err { OnErr result (out.new.items ≡ out.old.items) }
{
    let alloc = *out.allocator();
    let mut text = Vec::new(alloc);
    put(expr, &mut text)?;
    out.extend_from_slice(&text)
}

#[cycle(print)]
fn put(expr: &Expr, out: &mut Vec<u8>) -> Result<(), AllocError>
    ensures { OnOk result (out.new.items ≡ out.old.items ++ text_of (pieces (tree expr.now))) }
{
    match &expr.node {
        Node::Number(value) => value.print(out),
        Node::Str(text) => put_string(text.as_str(), out),
        Node::Select { name, lists } => put_select(name, lists.as_slice(), out),
        Node::Ranged {
            inner,
            window,
            offset,
        } => put_ranged(inner.get(), *window, *offset, out),
        Node::Call {
            name,
            args,
            before,
            after,
            keep,
        } => {
            put_call_name(name.as_str(), out)?;
            put_before(before, after, out)?;
            put_args(args.as_slice(), out)?;
            put_after(before, after, out)?;
            put_keep(*keep, out)
        }
        Node::Binary {
            op,
            truth,
            matching,
            left,
            right,
        } => {
            put_placed(level_of_op(*op), left.get(), out)?;
            put_operator(*op, *truth, matching, out)?;
            put_placed(level_of_op(*op) + 1, right.get(), out)
        }
        Node::Negate(inner) => put_negated(inner.get(), out),
        Node::With { templates, body } => {
            out.extend_from_slice(b"WITH ")?;
            put_templates(templates.as_slice(), out)?;
            put_body(body.get(), out)
        }
    }
}

/// Appends an expression with its window and its offset.
#[cycle(print)]
fn put_ranged(
    inner: &Expr,
    window: Option<Span>,
    offset: Option<Span>,
    out: &mut Vec<u8>,
) -> Result<(), AllocError>
    ensures { OnOk result
        (out.new.items ≡ out.old.items
        ++ text_of (pieces (ranged 0 (tree inner.now) window offset))) }
{
    put_placed(10, inner, out)?;
    put_window(window, out)?;
    put_offset(offset, out)
}

/// Appends an expression with a minus before it.
#[cycle(print)]
fn put_negated(inner: &Expr, out: &mut Vec<u8>) -> Result<(), AllocError>
    ensures { OnOk result
        (out.new.items ≡ out.old.items ++ text_of (pieces (negate 0 (tree inner.now)))) }
{
    out.push(b'-')?;
    put_placed(9, inner, out)
}

/// Appends the body of a WITH, with a blank before it.
#[cycle(print)]
fn put_body(body: &Expr, out: &mut Vec<u8>) -> Result<(), AllocError>
    ensures { OnOk result
        (out.new.items ≡ out.old.items ++ text_of (blank ∷ placed 1 (tree body.now))) }
{
    out.push(b' ')?;
    put_placed(1, body, out)
}

/// Appends an expression, in parentheses where it binds less closely than its place wants.
#[cycle(print)]
fn put_placed(least: u8, expr: &Expr, out: &mut Vec<u8>) -> Result<(), AllocError>
    ensures { OnOk result
        (out.new.items ≡ out.old.items ++ text_of (placed least (tree expr.now))) }
{
    if level_of(expr) >= least {
        return put(expr, out);
    }
    out.push(b'(')?;
    put(expr, out)?;
    out.push(b')')?;
    Ok(())
}

/// Appends the arguments of a call in parentheses.
#[cycle(print)]
fn put_args(args: &[Expr], out: &mut Vec<u8>) -> Result<(), AllocError>
    ensures { OnOk result
        (out.new.items ≡ out.old.items
        ++ text_of (in_parentheses (arguments (trees_in args.now)))) }
{
    out.push(b'(')?;
    for (index, arg) in args.iter().enumerate() {
        put_comma_before(index, out)?;
        put_placed(1, arg, out)?;
    }
    out.push(b')')?;
    Ok(())
}

/// Appends the templates of a WITH in parentheses.
#[cycle(print)]
fn put_templates(templates: &[Template], out: &mut Vec<u8>) -> Result<(), AllocError>
    ensures { OnOk result
        (out.new.items ≡ out.old.items
        ++ text_of (in_parentheses (bindings (templates_in templates.now)))) }
{
    out.push(b'(')?;
    for (index, template) in templates.iter().enumerate() {
        put_comma_before(index, out)?;
        put_template(template, out)?;
    }
    out.push(b')')?;
    Ok(())
}

/// Appends what parts an argument or a template from the one before it.
fn put_comma_before(index: usize, out: &mut Vec<u8>) -> Result<(), AllocError>
    ensures { OnOk result (out.new.items ≡ out.old.items ++ comma_before index) }
{
    if index > 0 {
        out.extend_from_slice(b", ")?;
    }
    Ok(())
}

#[cycle(print)]
fn put_template(template: &Template, out: &mut Vec<u8>) -> Result<(), AllocError>
    ensures { OnOk result
        (out.new.items ≡ out.old.items
        ++ text_of
        (binding template.now.name template.now.params (placed 1 (tree template.now.body)))) }
{
    put_text(&template.name, out)?;
    put_params(template.params.as_slice(), out)?;
    out.extend_from_slice(b" = ")?;
    put_placed(1, &template.body, out)
}
