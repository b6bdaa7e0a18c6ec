//! Queries, from their tokens.

ghost use Rattle.std.specs.Prelude.{◌≡◌, ℕ, true, false, length, Err, IfOk};
ghost use Rattle.std.specs.Option.{option_map};
ghost use Rattle.mql_expr.specs.Tree.{tree};
ghost use Rattle.mql_lex.specs.Tokens.{AreTokens};
ghost use Rattle.mql_lists.specs.Words.{words_of};
ghost use Rattle.mql_parse.specs.Faults.{IsUnexpected, IsBeyond};
ghost use Rattle.mql_parse.specs.Grammar.{Spells};
ghost use Rattle.mql_parse.specs.Machine.{end_with, standing as stands_there};
ghost use Rattle.mql_parse.specs.inner.Stack.{stack_of};
ghost use Rattle.mql_parse.specs.inner.Views.{the_before, the_fault, the_frames, the_measuring};
ghost use Rattle.mql_parse.specs.declared.parse_fault.ParseFault.TheVariants.{Unexpected, TooDeep, NumberTooWide};

use crate::fault::{StepError, Wrong};
use crate::operand::metric;
use crate::parse_fault::ParseFault;
use crate::reducing::{reduce, whole_call};
use crate::stack::Stack;
use crate::state::{Last, Measuring, Ranging};
use crate::step::step;
use mql_expr::Expr;
use mql_lex::Token;
use std::alloc::{AllocError, Global};

/// Reads the tokens of a text, which `mql_lex::tokens` gives, as a query. The limits are 100
/// levels, numbers of the store and durations below 2^48 ms and 2^48 steps. The first fault in the
/// text is named. The frames of what is open stand on the heap, so no depth of a text is a danger
/// to the stack.
///
/// (MetricsQL; PromQL, "Operators", "Binary operator precedence", "Aggregation operators", "Range
/// Vector Selectors", "Offset modifier"; MetricsQL, "WITH templates")
pub fn parse(alloc: Global, text: &str, tokens: &[Token]) -> Result<Expr, ParseFault>
    requires tokens { AreTokens text.now tokens.now }
    // What `Ok` holds.
    ensures found { IfOk result
        (λ expr. Spells (length text.now) (words_of text.now tokens.now) (tree expr)) }

    // When each error comes.
    ensures unexpected { (at : ℕ) → result ≡ Err (Unexpected at)
        → IsUnexpected (length text.now) (words_of text.now tokens.now) at }
    ensures too_deep { (at : ℕ) → result ≡ Err (TooDeep at)
        → IsBeyond false (length text.now) (words_of text.now tokens.now) at }
    ensures too_wide { (at : ℕ) → result ≡ Err (NumberTooWide at)
        → IsBeyond true (length text.now) (words_of text.now tokens.now) at }
{
    let mut stack = Stack::new(alloc);
    let mut last = Last::Nothing;
    'tokens: for token in tokens {
        match step(alloc, &mut stack, last, text, *token) {
            Ok(next) => last = next,
            Err(e) => return Err(fault_at(e, token.at)),
        }
    }
    match whole(alloc, &mut stack, last)? {
        Some(expr) => Ok(expr),
        None => Err(ParseFault::Unexpected {
            at: text.len() as u64,
        }),
    }
}

/// The fault of a token at this place.
fn fault_at(e: StepError, at: u64) -> ParseFault
    ensures { result ≡ the_fault e at }
{
    match e {
        StepError::Memory => ParseFault::Memory,
        StepError::Refused(Wrong::Unexpected) => ParseFault::Unexpected { at },
        StepError::Refused(Wrong::TooDeep) => ParseFault::TooDeep { at },
        StepError::Refused(Wrong::NumberTooWide) => ParseFault::NumberTooWide { at },
    }
}

/// The whole expression where the text ends, none where it ends too early.
#[tactic(auto, using(crate::proofs::Endings::end_there, crate::proofs::Endings::none_there))]
fn whole(alloc: Global, stack: &mut Stack, last: Last) -> Result<Option<Expr>, AllocError>
    ensures { IfOk result
        (λ found. option_map tree found
        ≡ end_with (the_frames (stack_of stack.old)) (stands_there (the_before last))) }
{
    let Some(expr) = standing(alloc, last)? else {
        return Ok(None);
    };
    let expr = reduce(alloc, stack, 0, expr)?;
    if stack.is_empty() {
        return Ok(Some(expr));
    }
    drop(expr);
    Ok(None)
}

/// The expression that stands before the next token, where one may end there.
fn standing(alloc: Global, last: Last) -> Result<Option<Expr>, AllocError>
    ensures { IfOk result (λ found. option_map tree found ≡ stands_there (the_before last)) }
{
    match last {
        Last::Name(head) => Ok(Some(metric(alloc, head))),
        Last::Called(call) | Last::Regrouped(call) => Ok(Some(whole_call(call, false))),
        Last::Primary(expr) | Last::Complete(expr) => Ok(Some(expr)),
        Last::Measuring(state) => windowed(alloc, state),
        other => {
            drop(other);
            Ok(None)
        }
    }
}

/// An expression with its window, where that is read.
fn windowed(alloc: Global, state: Measuring) -> Result<Option<Expr>, AllocError>
    ensures { IfOk result (λ found. option_map tree found ≡ stands_there (the_measuring state)) }
{
    match state {
        Measuring::Windowed(ranging, span) => {
            let Ranging { at, inner } = ranging;
            let expr = Expr::ranged(alloc, at, inner, Some(span), None)?;
            Ok(Some(expr))
        }
        other => {
            drop(other);
            Ok(None)
        }
    }
}
