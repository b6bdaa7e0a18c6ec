//! Expressions that end what they stand in.

ghost use Rattle.std.specs.Prelude.{◌≡◌, map, IfOk};
ghost use Rattle.mql_expr.specs.Tree.{tree};
ghost use Rattle.mql_parse.specs.Machine.{reduce as reduced, ended as ended_tree, calling as called_tree, close_frame, continue_frame, go_on as goes_on, one_more, with_one_more};
ghost use Rattle.mql_parse.specs.inner.Stack.{stack_of};
ghost use Rattle.mql_parse.specs.inner.Views.{the_call, the_frame, the_frames, the_head, the_scope, Steps};

use crate::fault::{StepError, Wrong};
use crate::stack::Stack;
use crate::state::{Calling, Heading, Here, Joining, Last, Open, Pending, Scoping, Templating};
use mql_expr::{Called, Expr, Joint, Param, Template, level_of_op};
use mql_lists::Class;
use std::alloc::{AllocError, Global};
use vm_base::List;

/// Ends all that an operator of this level ends, with this expression innermost.
pub(crate) fn reduce(
    alloc: Global,
    stack: &mut Stack,
    level: u8,
    expr: Expr,
) -> Result<Expr, AllocError>
    ensures { IfOk result (λ whole. reduced level (the_frames (stack_of stack.old)) (tree expr)
        ≡ record { frames = the_frames (stack_of stack.new); tree = tree whole }) }
{
    let mut whole = expr;
    'frames: while let Some(frame) = stack.pop_ended(level) {
        whole = ended(alloc, frame, whole)?;
    }
    Ok(whole)
}

/// What an expression and the frame that it ends make.
fn ended(alloc: Global, frame: Open, expr: Expr) -> Result<Expr, AllocError>
    ensures { IfOk result (λ whole. tree whole ≡ ended_tree (the_frame frame) (tree expr)) }
{
    match frame {
        Open::Negating(at) => Expr::negate(alloc, at, expr),
        Open::Operating(pending, matching) => {
            let Pending {
                at,
                op,
                truth,
                left,
            } = pending;
            let joint = Joint {
                op,
                truth,
                matching,
            };
            Expr::binary(alloc, at, joint, left, expr)
        }
        Open::Scoped(scope) => {
            let Scoping { at, templates } = scope;
            Expr::with(alloc, at, templates, expr)
        }
        _ => Ok(expr),
    }
}

/// A call, as an expression.
pub(crate) fn whole_call(call: Calling, keep: bool) -> Expr
    ensures { tree result ≡ called_tree (the_call call) keep }
{
    let Calling {
        at,
        name,
        args,
        before,
        after,
    } = call;
    let called = Called {
        name,
        before,
        after,
        keep,
    };
    Expr::call(at, called, args)
}

/// After an expression with all that belongs to it: an operator, `)` or `,`.
pub(crate) fn go_on(
    alloc: Global,
    stack: &mut Stack,
    expr: Expr,
    here: Here,
) -> Result<Last, StepError>
    ensures { Steps result (stack_of stack.new)
        (goes_on (the_frames (stack_of stack.old)) (tree expr) here.at here.class) }
{
    match here.class {
        Class::Operator(op) => {
            let left = reduce(alloc, stack, level_of_op(op), expr)?;
            let at = here.at;
            let truth = false;
            Ok(Last::Joining(Joining::Operator(Pending {
                at,
                op,
                truth,
                left,
            })))
        }
        Class::CloseRound => {
            let whole = reduce(alloc, stack, 0, expr)?;
            close(stack, whole)
        }
        Class::Comma => {
            let whole = reduce(alloc, stack, 0, expr)?;
            next_item(stack, whole)
        }
        _ => Err(StepError::Refused(Wrong::Unexpected)),
    }
}

/// After `)`.
fn close(stack: &mut Stack, expr: Expr) -> Result<Last, StepError>
    ensures { Steps result (stack_of stack.new)
        (close_frame (the_frames (stack_of stack.old)) (tree expr)) }
{
    match stack.pop() {
        Some(Open::Round) => Ok(Last::Primary(expr)),
        Some(Open::Calling(call)) => Ok(Last::Called(with_arg(call, expr)?)),
        Some(Open::Defining(scope, head, params)) => {
            let scope = with_template(scope, head, params, expr)?;
            stack.push(Open::Scoped(scope))?;
            Ok(Last::Nothing)
        }
        _ => Err(StepError::Refused(Wrong::Unexpected)),
    }
}

/// After `,`.
fn next_item(stack: &mut Stack, expr: Expr) -> Result<Last, StepError>
    ensures { Steps result (stack_of stack.new)
        (continue_frame (the_frames (stack_of stack.old)) (tree expr)) }
{
    match stack.pop() {
        Some(Open::Calling(call)) => {
            let call = with_arg(call, expr)?;
            stack.push(Open::Calling(call))?;
            Ok(Last::Nothing)
        }
        Some(Open::Defining(scope, head, params)) => {
            let scope = with_template(scope, head, params, expr)?;
            Ok(Last::Templating(Templating::Wanted(scope)))
        }
        _ => Err(StepError::Refused(Wrong::Unexpected)),
    }
}

/// A call with one more argument.
fn with_arg(call: Calling, arg: Expr) -> Result<Calling, AllocError>
    ensures { IfOk result (λ more. the_call more ≡ one_more (the_call call) (tree arg)) }
{
    let Calling {
        at,
        name,
        mut args,
        before,
        after,
    } = call;
    args.push(arg)?;
    Ok(Calling {
        at,
        name,
        args,
        before,
        after,
    })
}

/// A `with` with one more template.
fn with_template(
    scope: Scoping,
    head: Heading,
    params: List<Param>,
    body: Expr,
) -> Result<Scoping, AllocError>
    ensures { IfOk result
        (λ more. the_scope more
        ≡ with_one_more (the_scope scope) (the_head head) params (tree body)) }
{
    let Scoping { at, mut templates } = scope;
    let Heading { at: place, name } = head;
    templates.push(Template::new(place, name, params, body))?;
    Ok(Scoping { at, templates })
}
