//! After an expression, before its window and its offset.

ghost use Rattle.std.specs.Prelude.{◌≡◌, ◌<◌, ◌∷◌, ℕ, false, true};
ghost use Rattle.mql_expr.specs.Tree.{tree};
ghost use Rattle.mql_parse.specs.Machine.{State, at as state_at, opening, wanted, call_of as call_tree, metric as metric_tree, calling as called_tree, by_primary as after_primary, by_regrouped as after_regrouped, by_called as after_called, by_named as after_name, by_grouped as after_grouped};
ghost use Rattle.mql_parse.specs.inner.Stack.{stack_of};
ghost use Rattle.mql_parse.specs.inner.Views.{the_call, the_frame, the_frames, the_head, Steps};

use crate::fault::{StepError, Wrong};
use crate::reducing::{go_on, whole_call};
use crate::stack::Stack;
use crate::state::{Calling, Heading, Here, Last, Measuring, NamesFor, Open, Ranging};
use mql_expr::Expr;
use mql_lists::{BracesReader, Class};
use std::alloc::Global;
use vm_base::List;

/// Opens a level, in which an expression is wanted.
#[tactic(auto, using(crate::proofs::Openings::opening_there, crate::proofs::Openings::opening_deep))]
pub(crate) fn open_level(stack: &mut Stack, frame: Open) -> Result<Last, StepError>
    ensures { (len here : ℕ) → here < len → Steps result (stack_of stack.new)
        (opening len here (the_frames (stack_of stack.old))
        (state_at (the_frame frame ∷ the_frames (stack_of stack.old)) wanted)) }
{
    if !stack.has_room() {
        return Err(StepError::Refused(Wrong::TooDeep));
    }
    stack.push(frame)?;
    Ok(Last::Nothing)
}

/// After an expression that may take a window or an offset.
pub(crate) fn by_primary(
    alloc: Global,
    stack: &mut Stack,
    expr: Expr,
    here: Here,
) -> Result<Last, StepError>
    ensures { Steps result (stack_of stack.new)
        (after_primary (the_frames (stack_of stack.old)) (tree expr) here.at here.class) }
{
    let at = here.at;
    match here.class {
        Class::OpenSquare => {
            let ranging = Ranging { at, inner: expr };
            Ok(Last::Measuring(Measuring::WindowWanted(ranging)))
        }
        Class::Offset => {
            let ranging = Ranging { at, inner: expr };
            Ok(Last::Measuring(Measuring::OffsetWanted(ranging, None)))
        }
        _ => go_on(alloc, stack, expr, here),
    }
}

/// After a call and the group that follows it.
pub(crate) fn by_regrouped(
    alloc: Global,
    stack: &mut Stack,
    call: Calling,
    here: Here,
) -> Result<Last, StepError>
    ensures { Steps result (stack_of stack.new)
        (after_regrouped (the_frames (stack_of stack.old)) (the_call call) here.at here.class) }
{
    match here.class {
        Class::Keep => Ok(Last::Primary(whole_call(call, true))),
        _ => by_call(alloc, stack, call, here),
    }
}

/// After a call with all that belongs to it.
fn by_call(alloc: Global, stack: &mut Stack, call: Calling, here: Here) -> Result<Last, StepError>
    ensures { Steps result (stack_of stack.new)
        (after_primary (the_frames (stack_of stack.old)) (called_tree (the_call call) false) here.at
        here.class) }
{
    let expr = whole_call(call, false);
    by_primary(alloc, stack, expr, here)
}

/// After the arguments of a call.
pub(crate) fn by_called(
    alloc: Global,
    stack: &mut Stack,
    call: Calling,
    here: Here,
) -> Result<Last, StepError>
    ensures { Steps result (stack_of stack.new)
        (after_called (the_frames (stack_of stack.old)) (the_call call) here.at here.class) }
{
    match here.class {
        Class::Grouping { by } => Ok(Last::NamesWanted(NamesFor::GroupAfter(call, by))),
        _ => by_regrouped(alloc, stack, call, here),
    }
}

/// After a call with its group, before its arguments.
pub(crate) fn by_grouped(stack: &mut Stack, call: Calling, here: Here) -> Result<Last, StepError>
    ensures { (len : ℕ) → here.at < len
        → Steps result (stack_of stack.new)
        (after_grouped len (the_frames (stack_of stack.old)) (the_call call) here.at here.class) }
{
    match here.class {
        Class::OpenRound => open_level(stack, Open::Calling(call)),
        _ => Err(StepError::Refused(Wrong::Unexpected)),
    }
}

/// After a name.
pub(crate) fn by_name(
    alloc: Global,
    stack: &mut Stack,
    head: Heading,
    here: Here,
) -> Result<Last, StepError>
    ensures { (len : ℕ) → here.at < len
        → Steps result (stack_of stack.new)
        (after_name len (the_frames (stack_of stack.old)) (the_head head) here.at here.class) }
{
    match here.class {
        Class::OpenRound => open_level(stack, Open::Calling(call_of(alloc, head))),
        Class::OpenCurly => {
            let Heading { at, name } = head;
            Ok(Last::InBraces(at, Some(name), BracesReader::new(alloc)))
        }
        Class::Grouping { by } => {
            let call = call_of(alloc, head);
            Ok(Last::NamesWanted(NamesFor::GroupBefore(call, by)))
        }
        _ => by_metric(alloc, stack, head, here),
    }
}

/// After a name that is a selector.
fn by_metric(alloc: Global, stack: &mut Stack, head: Heading, here: Here) -> Result<Last, StepError>
    ensures { Steps result (stack_of stack.new)
        (after_primary (the_frames (stack_of stack.old)) (metric_tree (the_head head)) here.at
        here.class) }
{
    let expr = metric(alloc, head);
    by_primary(alloc, stack, expr, here)
}

/// A call that begins with a name.
fn call_of(alloc: Global, head: Heading) -> Calling
    ensures { the_call result ≡ call_tree (the_head head) }
{
    let Heading { at, name } = head;
    Calling {
        at,
        name,
        args: List::new(alloc),
        before: None,
        after: None,
    }
}

/// A name, as a selector.
pub(crate) fn metric(alloc: Global, head: Heading) -> Expr
    ensures { tree result ≡ metric_tree (the_head head) }
{
    let Heading { at, name } = head;
    Expr::select(at, Some(name), List::new(alloc))
}
