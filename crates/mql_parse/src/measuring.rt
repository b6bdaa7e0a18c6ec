//! Windows and offsets.

ghost use Rattle.std.specs.Prelude.{◌≡◌, ◌<◌, ℕ, pos, ◌-ℤ◌, int_le, List as ListOf, Some, MatchResult, IsTrue};
ghost use Rattle.mql_expr.specs.Tree.{tree, ranged};
ghost use Rattle.mql_lex.specs.Tokens.{StandsIn};
ghost use Rattle.mql_lists.specs.Classes.{class_of_word};
ghost use Rattle.mql_lists.specs.Words.{word_of};
ghost use Rattle.mql_parse.specs.Machine.{by, complete, by_window as after_window, by_window_wanted as where_window, by_window_read as after_length, by_offset_wanted as where_offset, by_offset_back as where_back};
ghost use Rattle.mql_parse.specs.inner.Stack.{stack_of};
ghost use Rattle.mql_parse.specs.inner.Views.{the_before, the_frames, the_measuring, Steps};
ghost use Rattle.mql_parse.specs.declared.state.Open.{Open as OpenOf};
ghost use Rattle.mql_parse.specs.declared.fault.StepError.TheVariants.{Memory};

use crate::duration::duration;
use crate::fault::{StepError, Wrong};
use crate::reducing::go_on;
use crate::stack::Stack;
use crate::state::{Here, Last, Measuring, Ranging};
use mql_expr::Expr;
use mql_lex::{Op, Span, Token};
use mql_lists::{Class, class_of};
use std::alloc::Global;

/// After a part of a window or of an offset.
pub(crate) fn by_measuring(
    alloc: Global,
    stack: &mut Stack,
    state: Measuring,
    text: &str,
    token: Token,
) -> Result<Last, StepError>
    requires stands { StandsIn text.now token }
    ensures { (len : ℕ) → token.at < len → Steps result (stack_of stack.new)
        (by len (the_frames (stack_of stack.old)) (the_measuring state) (word_of text.now token)
        (class_of_word (word_of text.now token))) }
{
    let at = token.at;
    let class = class_of(text, token);
    match state {
        Measuring::WindowWanted(ranging) => by_window_wanted(ranging, text, token),
        Measuring::WindowRead(ranging, span) => by_window_read(ranging, span, class),
        Measuring::Windowed(ranging, span) => {
            by_window(alloc, stack, ranging, span, Here { at, class })
        }
        Measuring::OffsetWanted(ranging, window) => {
            by_offset_wanted(alloc, ranging, window, text, token)
        }
        Measuring::OffsetBack(ranging, window) => {
            by_offset_back(alloc, ranging, window, text, token)
        }
    }
}

/// After `[`.
#[tactic(auto, using(crate::proofs::Openings::measured_there, crate::proofs::Openings::measured_wide))]
fn by_window_wanted(ranging: Ranging, text: &str, token: Token) -> Result<Last, StepError>
    requires stands { StandsIn text.now token }
    ensures { (len : ℕ) → token.at < len → (opens : ListOf OpenOf) → Steps result opens
        (where_window len (the_frames opens) ranging.at (tree ranging.inner)
        (word_of text.now token) (class_of_word (word_of text.now token))) }
{
    match class_of(text, token) {
        Class::Time => match duration(text, token) {
            Some(span) => Ok(Last::Measuring(Measuring::WindowRead(ranging, span))),
            None => Err(StepError::Refused(Wrong::NumberTooWide)),
        },
        _ => Err(StepError::Refused(Wrong::Unexpected)),
    }
}

/// After `[` and a duration.
fn by_window_read(ranging: Ranging, span: Span, class: Class) -> Result<Last, StepError>
    ensures { (opens : ListOf OpenOf)
        → Steps result opens
        (after_length (the_frames opens) ranging.at (tree ranging.inner) span class) }
{
    match class {
        Class::CloseSquare => Ok(Last::Measuring(Measuring::Windowed(ranging, span))),
        _ => Err(StepError::Refused(Wrong::Unexpected)),
    }
}

/// After a window.
fn by_window(
    alloc: Global,
    stack: &mut Stack,
    ranging: Ranging,
    span: Span,
    here: Here,
) -> Result<Last, StepError>
    ensures { Steps result (stack_of stack.new)
        (after_window (the_frames (stack_of stack.old)) ranging.at (tree ranging.inner) span here.at
        here.class) }
{
    match here.class {
        Class::Offset => Ok(Last::Measuring(Measuring::OffsetWanted(ranging, Some(span)))),
        _ => {
            let Ranging { at, inner } = ranging;
            let expr = Expr::ranged(alloc, at, inner, Some(span), None)?;
            go_on(alloc, stack, expr, here)
        }
    }
}

/// After `offset`.
#[tactic(auto, using(crate::proofs::Openings::measured_there, crate::proofs::Openings::measured_wide))]
fn by_offset_wanted(
    alloc: Global,
    ranging: Ranging,
    window: Option<Span>,
    text: &str,
    token: Token,
) -> Result<Last, StepError>
    requires stands { StandsIn text.now token }
    ensures { (len : ℕ) → token.at < len → (opens : ListOf OpenOf) → Steps result opens
        (where_offset len (the_frames opens) ranging.at (tree ranging.inner) window
        (word_of text.now token) (class_of_word (word_of text.now token))) }
{
    match class_of(text, token) {
        Class::Time => match duration(text, token) {
            Some(span) => whole(alloc, ranging, window, span),
            None => Err(StepError::Refused(Wrong::NumberTooWide)),
        },
        Class::Operator(Op::Sub) => { Ok(Last::Measuring(Measuring::OffsetBack(ranging, window))) }
        _ => Err(StepError::Refused(Wrong::Unexpected)),
    }
}

/// After `offset -`.
#[tactic(auto, using(crate::proofs::Openings::measured_there, crate::proofs::Openings::measured_wide))]
fn by_offset_back(
    alloc: Global,
    ranging: Ranging,
    window: Option<Span>,
    text: &str,
    token: Token,
) -> Result<Last, StepError>
    requires stands { StandsIn text.now token }
    ensures { (len : ℕ) → token.at < len → (opens : ListOf OpenOf) → Steps result opens
        (where_back len (the_frames opens) ranging.at (tree ranging.inner) window
        (word_of text.now token) (class_of_word (word_of text.now token))) }
{
    match class_of(text, token) {
        Class::Time => match duration(text, token) {
            Some(span) => whole(alloc, ranging, window, back(span)),
            None => Err(StepError::Refused(Wrong::NumberTooWide)),
        },
        _ => Err(StepError::Refused(Wrong::Unexpected)),
    }
}

/// An expression with its window and its offset.
fn whole(
    alloc: Global,
    ranging: Ranging,
    window: Option<Span>,
    offset: Span,
) -> Result<Last, StepError>
    ensures { MatchResult result
        (λ last. the_before last
        ≡ complete (ranged ranging.at (tree ranging.inner) window (Some offset)))
        (λ e. e ≡ Memory) }
{
    let Ranging { at, inner } = ranging;
    let expr = Expr::ranged(alloc, at, inner, window, Some(offset))?;
    Ok(Last::Complete(expr))
}

/// A length of time back.
fn back(span: Span) -> Span
    requires ms { IsTrue (int_le (pos 0) span.ms) }
    requires steps { IsTrue (int_le (pos 0) span.steps) }
    ensures { result ≡ record { ms = pos 0 -ℤ span.ms; steps = pos 0 -ℤ span.steps } }
{
    Span {
        ms: 0 - span.ms,
        steps: 0 - span.steps,
    }
}
