//! Names in parentheses, and what stands in braces.

ghost use Rattle.std.specs.Prelude.{◌≡◌, List as ListOf, Some, map};
ghost use Rattle.mql_expr.specs.Tree.{tree, select as select_tree};
ghost use Rattle.mql_parse.specs.Grammar.{matching as match_of};
ghost use Rattle.mql_parse.specs.Machine.{at as state_at, reached, in_operator, within_part, named_for as behind_purpose, by_names_wanted as where_names, in_names as among_names, in_braces as among_braces, primary};
ghost use Rattle.mql_parse.specs.inner.Stack.{stack_of};
ghost use Rattle.mql_parse.specs.inner.Views.{the_call, the_frame, the_frames, the_joint, the_purpose, Steps};
ghost use Rattle.mql_parse.specs.declared.state.Open.{Open as OpenOf};

use crate::fault::{StepError, Wrong};
use crate::stack::Stack;
use crate::state::{Calling, Joining, Last, NamesFor, Open, Paired};
use mql_expr::{Expr, Item};
use mql_lex::{Group, Many, Matching};
use mql_lists::{BracesReader, Class, NamesReader, Progress};
use std::alloc::Global;
use vm_base::{List, Text};

/// Where names in parentheses are wanted.
pub(crate) fn by_names_wanted(
    alloc: Global,
    purpose: NamesFor,
    class: Class,
) -> Result<Last, StepError>
    ensures { (opens : ListOf OpenOf)
        → Steps result opens (where_names (the_frames opens) (the_purpose purpose) class) }
{
    match class {
        Class::OpenRound => Ok(Last::InNames(purpose, NamesReader::new(alloc))),
        _ => Err(StepError::Refused(Wrong::Unexpected)),
    }
}

/// After one more word among names.
pub(crate) fn behind_names(
    stack: &mut Stack,
    purpose: NamesFor,
    progress: Option<Progress<NamesReader, List<Text>>>,
) -> Result<Last, StepError>
    ensures { Steps result (stack_of stack.new)
        (within_part
        (λ s. state_at (the_frames (stack_of stack.old)) (among_names (the_purpose purpose) s))
        (behind_purpose (the_frames (stack_of stack.old)) (the_purpose purpose)) progress) }
{
    match progress {
        Some(Progress::Goes(reader)) => Ok(Last::InNames(purpose, reader)),
        Some(Progress::Done(names)) => named_for(stack, purpose, names),
        None => Err(StepError::Refused(Wrong::Unexpected)),
    }
}

/// After names and their `)`.
fn named_for(stack: &mut Stack, purpose: NamesFor, names: List<Text>) -> Result<Last, StepError>
    ensures { Steps result (stack_of stack.new)
        (reached (behind_purpose (the_frames (stack_of stack.old)) (the_purpose purpose) names)) }
{
    match purpose {
        NamesFor::GroupBefore(call, by) => Ok(Last::Grouped(grouped(call, Group { by, names }))),
        NamesFor::GroupAfter(call, by) => Ok(Last::Regrouped(regrouped(call, Group { by, names }))),
        NamesFor::Pairs(pending, kind) => Ok(Last::Joining(Joining::Matched(Paired {
            pending,
            kind,
            names,
            many: Many::One,
        }))),
        NamesFor::Taken(paired) => {
            stack.push(operating(paired, names))?;
            Ok(Last::Nothing)
        }
    }
}

/// A call with the group before its arguments.
fn grouped(call: Calling, group: Group) -> Calling
    ensures { the_call result
        ≡ record {
          at = call.at;
          name = call.name;
          args = map tree call.args;
          before = Some group;
          after = call.after;
        } }
{
    let Calling {
        at,
        name,
        args,
        after,
        ..
    } = call;
    Calling {
        at,
        name,
        args,
        before: Some(group),
        after,
    }
}

/// A call with the group after its arguments.
fn regrouped(call: Calling, group: Group) -> Calling
    ensures { the_call result
        ≡ record {
          at = call.at;
          name = call.name;
          args = map tree call.args;
          before = call.before;
          after = Some group;
        } }
{
    let Calling {
        at,
        name,
        args,
        before,
        ..
    } = call;
    Calling {
        at,
        name,
        args,
        before,
        after: Some(group),
    }
}

/// An operator with all its modifiers.
fn operating(paired: Paired, extra: List<Text>) -> Open
    ensures { the_frame result
        ≡ in_operator (the_joint paired.pending)
        (match_of paired.kind paired.names paired.many extra) }
{
    let Paired {
        pending,
        kind,
        names,
        many,
    } = paired;
    let matching = Matching {
        kind,
        names,
        many,
        extra,
    };
    Open::Operating(pending, matching)
}

/// After one more word in braces.
pub(crate) fn behind_braces(
    at: u64,
    name: Option<Text>,
    progress: Option<Progress<BracesReader, List<List<Item>>>>,
) -> Result<Last, StepError>
    ensures { (opens : ListOf OpenOf) → Steps result opens
        (within_part (λ s. state_at (the_frames opens) (among_braces at name s))
        (λ lists. state_at (the_frames opens) (primary (select_tree at name lists))) progress) }
{
    match progress {
        Some(Progress::Goes(reader)) => Ok(Last::InBraces(at, name, reader)),
        Some(Progress::Done(lists)) => Ok(Last::Primary(Expr::select(at, name, lists))),
        None => Err(StepError::Refused(Wrong::Unexpected)),
    }
}
