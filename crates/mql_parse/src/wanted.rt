//! Where an expression is wanted.

ghost use Rattle.std.specs.Prelude.{◌≡◌, ◌<◌, ℕ, List as ListOf, IfOk};
ghost use Rattle.mql_lex.specs.Tokens.{StandsIn, slice_of};
ghost use Rattle.mql_lex.specs.declared.token.TokenKind.{TokenKind};
ghost use Rattle.mql_lists.specs.Classes.{class_of_word};
ghost use Rattle.mql_lists.specs.Words.{word_of};
ghost use Rattle.mql_lists.specs.declared.class.Class.{Class as ClassOf};
ghost use Rattle.mql_parse.specs.Machine.{by_wanted as where_wanted, no_more as none_more, head_of};
ghost use Rattle.mql_parse.specs.Values.{number_of};
ghost use Rattle.mql_parse.specs.declared.state.Open.{Open as OpenOf};
ghost use Rattle.mql_parse.specs.inner.Stack.{stack_of};
ghost use Rattle.mql_parse.specs.inner.Views.{the_frames, the_head, Steps};

use crate::fault::{StepError, Wrong};
use crate::operand::open_level;
use crate::stack::Stack;
use crate::state::{Heading, Last, Open, Templating};
use mql_expr::Expr;
use mql_lex::{Op, Token};
use mql_lists::{BracesReader, Class, class_of, name_text, unquote};
use std::alloc::{AllocError, Global};
use vm_decimal::{Dec, read};

/// Where an expression is wanted.
pub(crate) fn by_nothing(
    alloc: Global,
    stack: &mut Stack,
    text: &str,
    token: Token,
) -> Result<Last, StepError>
    requires stands { StandsIn text.now token }
    ensures { (len : ℕ) → token.at < len → Steps result (stack_of stack.new)
        (where_wanted len (the_frames (stack_of stack.old)) (word_of text.now token)
        (class_of_word (word_of text.now token))) }
{
    let at = token.at;
    match class_of(text, token) {
        Class::Numeral => number(text, token),
        Class::Quoted => {
            let value = unquote(alloc, text, token)?;
            Ok(Last::Primary(Expr::string(at, value)))
        }
        Class::Identifier => Ok(Last::Name(heading(alloc, text, token)?)),
        Class::OpenCurly => Ok(Last::InBraces(at, None, BracesReader::new(alloc))),
        Class::OpenRound => open_level(stack, Open::Round),
        Class::CloseRound => no_more(stack),
        Class::With => Ok(Last::Templating(Templating::With(at))),
        Class::Operator(Op::Sub) => open_level(stack, Open::Negating(at)),
        Class::Operator(Op::Add) => open_level(stack, Open::Adding),
        _ => Err(StepError::Refused(Wrong::Unexpected)),
    }
}

/// A number.
fn number(text: &str, token: Token) -> Result<Last, StepError>
    requires stands { StandsIn text.now token }
    ensures { (len : ℕ) → token.at < len → (opens : ListOf OpenOf) → Steps result opens
        (where_wanted len (the_frames opens) (word_of text.now token) ClassOf.Numeral) }
{
    match number_at(text, token) {
        Some(value) => Ok(Last::Primary(Expr::number(token.at, value))),
        None => Err(StepError::Refused(Wrong::NumberTooWide)),
    }
}

/// The number that a token is, none where it is out of range.
#[tactic(auto, unfolding(crate::specs::Values::number_of))]
fn number_at(text: &str, token: Token) -> Option<Dec>
    requires stands { StandsIn text.now token }
    ensures { result ≡ number_of (slice_of text.now token) }
{
    let at = token.at as usize;
    match read(&text.as_bytes()[at..at + token.len as usize]) {
        Ok(value) => Some(value),
        Err(_) => None,
    }
}

/// The name that a token is.
pub(crate) fn heading(alloc: Global, text: &str, token: Token) -> Result<Heading, AllocError>
    requires stands { StandsIn text.now token }
    requires name { token.kind ≡ TokenKind.Name }
    ensures { IfOk result (λ head. the_head head ≡ head_of (word_of text.now token)) }
{
    let name = name_text(alloc, text, token)?;
    Ok(Heading { at: token.at, name })
}

/// After a `)` where no argument stands before it.
fn no_more(stack: &mut Stack) -> Result<Last, StepError>
    ensures { Steps result (stack_of stack.new) (none_more (the_frames (stack_of stack.old))) }
{
    match stack.pop() {
        Some(Open::Calling(call)) => Ok(Last::Called(call)),
        _ => Err(StepError::Refused(Wrong::Unexpected)),
    }
}
