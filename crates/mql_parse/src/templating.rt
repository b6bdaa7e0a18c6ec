//! The templates of a `with`.

ghost use Rattle.std.specs.Prelude.{◌≡◌, ◌<◌, ℕ, List as ListOf};
ghost use Rattle.mql_lex.specs.Tokens.{StandsIn};
ghost use Rattle.mql_lists.specs.Classes.{class_of_word};
ghost use Rattle.mql_lists.specs.Words.{word_of};
ghost use Rattle.mql_parse.specs.Machine.{at as state_at, by, within_part, by_with_read as after_with, by_template_wanted as where_template, by_template_named as after_template, by_template_headed as after_head, in_params as among_params, template_headed};
ghost use Rattle.mql_parse.specs.inner.Stack.{stack_of};
ghost use Rattle.mql_parse.specs.inner.Views.{the_frames, the_head, the_scope, the_templating, Steps};
ghost use Rattle.mql_parse.specs.declared.state.Open.{Open as OpenOf};

use crate::fault::{StepError, Wrong};
use crate::stack::Stack;
use crate::state::{Heading, Here, Last, Open, Scoping, Templating};
use crate::wanted::heading;
use mql_expr::Param;
use mql_lex::Token;
use mql_lists::{Class, ParamsReader, Progress, class_of};
use std::alloc::Global;
use vm_base::List;

/// After a part of the templates of a `with`.
pub(crate) fn by_templating(
    alloc: Global,
    stack: &mut Stack,
    state: Templating,
    text: &str,
    token: Token,
) -> Result<Last, StepError>
    requires stands { StandsIn text.now token }
    ensures { (len : ℕ) → token.at < len → Steps result (stack_of stack.new)
        (by len (the_frames (stack_of stack.old)) (the_templating state) (word_of text.now token)
        (class_of_word (word_of text.now token))) }
{
    let class = class_of(text, token);
    match state {
        Templating::With(at) => by_with(alloc, stack, at, class),
        Templating::Wanted(scope) => by_template(alloc, stack, scope, text, token),
        Templating::Name(scope, head) => by_template_name(alloc, stack, scope, head, class),
        Templating::InParams(scope, head, reader) => {
            let progress = reader.step(alloc, text, token)?;
            behind_params(scope, head, progress)
        }
        Templating::Head(scope, head, params) => by_head(stack, scope, head, params, class),
    }
}

/// After `with`.
#[tactic(auto, using(crate::proofs::Openings::opening_there, crate::proofs::Openings::opening_deep))]
fn by_with(alloc: Global, stack: &mut Stack, at: u64, class: Class) -> Result<Last, StepError>
    ensures { (len here : ℕ) → here < len
        → Steps result (stack_of stack.new)
        (after_with len (the_frames (stack_of stack.old)) at here class) }
{
    match class {
        Class::OpenRound if !stack.has_room() => Err(StepError::Refused(Wrong::TooDeep)),
        Class::OpenRound => {
            let templates = List::new(alloc);
            Ok(Last::Templating(Templating::Wanted(Scoping { at, templates })))
        }
        _ => Err(StepError::Refused(Wrong::Unexpected)),
    }
}

/// Where a template or `)` is wanted.
fn by_template(
    alloc: Global,
    stack: &mut Stack,
    scope: Scoping,
    text: &str,
    token: Token,
) -> Result<Last, StepError>
    requires stands { StandsIn text.now token }
    ensures { Steps result (stack_of stack.new)
        (where_template (the_frames (stack_of stack.old)) (the_scope scope) (word_of text.now token)
        (class_of_word (word_of text.now token))) }
{
    match class_of(text, token) {
        Class::Identifier => {
            let head = heading(alloc, text, token)?;
            Ok(Last::Templating(Templating::Name(scope, head)))
        }
        Class::CloseRound => {
            stack.push(Open::Scoped(scope))?;
            Ok(Last::Nothing)
        }
        _ => Err(StepError::Refused(Wrong::Unexpected)),
    }
}

/// After the name of a template.
fn by_template_name(
    alloc: Global,
    stack: &mut Stack,
    scope: Scoping,
    head: Heading,
    class: Class,
) -> Result<Last, StepError>
    ensures { Steps result (stack_of stack.new)
        (after_template (the_frames (stack_of stack.old)) (the_scope scope) (the_head head) class) }
{
    match class {
        Class::OpenRound => {
            let reader = ParamsReader::new(alloc);
            Ok(Last::Templating(Templating::InParams(scope, head, reader)))
        }
        _ => by_head(stack, scope, head, List::new(alloc), class),
    }
}

/// After the name and the parameters of a template.
fn by_head(
    stack: &mut Stack,
    scope: Scoping,
    head: Heading,
    params: List<Param>,
    class: Class,
) -> Result<Last, StepError>
    ensures { Steps result (stack_of stack.new)
        (after_head (the_frames (stack_of stack.old)) (the_scope scope) (the_head head) params
        class) }
{
    match class {
        Class::Assign => {
            stack.push(Open::Defining(scope, head, params))?;
            Ok(Last::Nothing)
        }
        _ => Err(StepError::Refused(Wrong::Unexpected)),
    }
}

/// After one more word among parameters.
fn behind_params(
    scope: Scoping,
    head: Heading,
    progress: Option<Progress<ParamsReader, List<Param>>>,
) -> Result<Last, StepError>
    ensures { (opens : ListOf OpenOf) → Steps result opens
        (within_part
        (λ s. state_at (the_frames opens) (among_params (the_scope scope) (the_head head) s))
        (λ params.
        state_at (the_frames opens) (template_headed (the_scope scope) (the_head head) params))
        progress) }
{
    match progress {
        Some(Progress::Goes(reader)) => Ok(Last::Templating(Templating::InParams(
            scope, head, reader,
        ))),
        Some(Progress::Done(params)) => {
            Ok(Last::Templating(Templating::Head(scope, head, params)))
        }
        None => Err(StepError::Refused(Wrong::Unexpected)),
    }
}
