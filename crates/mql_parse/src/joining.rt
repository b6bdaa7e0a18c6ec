//! After an operator.

ghost use Rattle.std.specs.Prelude.{◌≡◌, ◌<◌, ◌∷◌, [], ℕ, List as ListOf};
ghost use Rattle.mql_lex.specs.Tokens.{StandsIn};
ghost use Rattle.mql_lists.specs.Classes.{class_of_word};
ghost use Rattle.mql_lists.specs.Words.{word_of};
ghost use Rattle.mql_parse.specs.Grammar.{is_comparison as compares, matching as match_of};
ghost use Rattle.mql_parse.specs.Machine.{at as state_at, by, only, compared, true_joint, by_wanted as where_wanted, by_operated as after_operator, by_compared as after_compared, by_matched as after_matched, by_many as after_many};
ghost use Rattle.mql_parse.specs.inner.Stack.{stack_of};
ghost use Rattle.mql_parse.specs.inner.Views.{the_frame, the_frames, the_joining, the_joint, Steps};
ghost use Rattle.mql_parse.specs.declared.fault.Wrong.TheVariants.{Unexpected};
ghost use Rattle.mql_parse.specs.declared.state.Open.{Open as OpenOf};
ghost use Rattle.mql_lex.specs.declared.group.MatchKind.TheVariants.{All};
ghost use Rattle.mql_lex.specs.declared.group.Many.TheVariants.{One};

use crate::fault::{StepError, Wrong};
use crate::stack::Stack;
use crate::state::{Joining, Last, NamesFor, Open, Paired, Pending};
use crate::wanted::by_nothing;
use mql_lex::{Many, MatchKind, Matching, Op, Token};
use mql_lists::{Class, NamesReader, class_of};
use std::alloc::Global;
use vm_base::{List, Text};

/// After an operator and a part of what belongs to it.
pub(crate) fn by_joining(
    alloc: Global,
    stack: &mut Stack,
    state: Joining,
    text: &str,
    token: Token,
) -> Result<Last, StepError>
    requires stands { StandsIn text.now token }
    ensures { (len : ℕ) → token.at < len → Steps result (stack_of stack.new)
        (by len (the_frames (stack_of stack.old)) (the_joining state) (word_of text.now token)
        (class_of_word (word_of text.now token))) }
{
    match state {
        Joining::Operator(pending) => by_operator(alloc, stack, pending, text, token),
        Joining::Compared(pending) => by_compared(alloc, stack, pending, text, token),
        Joining::Matched(paired) => by_matched(alloc, stack, paired, text, token),
        Joining::Widened(paired) => by_widened(alloc, stack, paired, text, token),
    }
}

/// After an operator.
fn by_operator(
    alloc: Global,
    stack: &mut Stack,
    pending: Pending,
    text: &str,
    token: Token,
) -> Result<Last, StepError>
    requires stands { StandsIn text.now token }
    ensures { (len : ℕ) → token.at < len → Steps result (stack_of stack.new)
        (after_operator len (the_frames (stack_of stack.old)) (the_joint pending)
        (word_of text.now token) (class_of_word (word_of text.now token))) }
{
    match class_of(text, token) {
        Class::Truth => by_truth(pending),
        _ => by_compared(alloc, stack, pending, text, token),
    }
}

/// After `bool`, which only a comparison may have.
fn by_truth(pending: Pending) -> Result<Last, StepError>
    ensures { (opens : ListOf OpenOf)
        → Steps result opens
        (only (compares pending.op) Unexpected
        (state_at (the_frames opens) (compared (true_joint (the_joint pending))))) }
{
    let Pending { at, op, left, .. } = pending;
    if !is_comparison(op) {
        return Err(StepError::Refused(Wrong::Unexpected));
    }
    let truth = true;
    Ok(Last::Joining(Joining::Compared(Pending {
        at,
        op,
        truth,
        left,
    })))
}

fn is_comparison(op: Op) -> bool
    ensures { result ≡ compares op }
{
    matches!(
        op,
        Op::Equal | Op::Differs | Op::AtMost | Op::AtLeast | Op::Below | Op::Above
    )
}

/// After an operator and `bool`, where one may stand.
fn by_compared(
    alloc: Global,
    stack: &mut Stack,
    pending: Pending,
    text: &str,
    token: Token,
) -> Result<Last, StepError>
    requires stands { StandsIn text.now token }
    ensures { (len : ℕ) → token.at < len → Steps result (stack_of stack.new)
        (after_compared len (the_frames (stack_of stack.old)) (the_joint pending)
        (word_of text.now token) (class_of_word (word_of text.now token))) }
{
    match class_of(text, token) {
        Class::Pairing(kind) => Ok(Last::NamesWanted(NamesFor::Pairs(pending, kind))),
        _ => {
            let matching = all_labels(alloc);
            within(
                alloc,
                stack,
                Open::Operating(pending, matching),
                text,
                token,
            )
        }
    }
}

/// After the names of `on` or `ignoring`.
fn by_matched(
    alloc: Global,
    stack: &mut Stack,
    paired: Paired,
    text: &str,
    token: Token,
) -> Result<Last, StepError>
    requires stands { StandsIn text.now token }
    ensures { (len : ℕ) → token.at < len → Steps result (stack_of stack.new)
        (after_matched len (the_frames (stack_of stack.old)) (the_joint paired.pending) paired.kind
        paired.names (word_of text.now token) (class_of_word (word_of text.now token))) }
{
    let Paired {
        pending,
        kind,
        names,
        ..
    } = paired;
    match class_of(text, token) {
        Class::Joining(many) => Ok(Last::Joining(Joining::Widened(Paired {
            pending,
            kind,
            names,
            many,
        }))),
        _ => {
            let matching = modifiers(alloc, kind, names, Many::One);
            within(
                alloc,
                stack,
                Open::Operating(pending, matching),
                text,
                token,
            )
        }
    }
}

/// After `group_left` or `group_right`.
fn by_widened(
    alloc: Global,
    stack: &mut Stack,
    paired: Paired,
    text: &str,
    token: Token,
) -> Result<Last, StepError>
    requires stands { StandsIn text.now token }
    ensures { (len : ℕ) → token.at < len → Steps result (stack_of stack.new)
        (after_many len (the_frames (stack_of stack.old)) (the_joint paired.pending) paired.kind
        paired.names paired.many (word_of text.now token)
        (class_of_word (word_of text.now token))) }
{
    match class_of(text, token) {
        Class::OpenRound => {
            let reader = NamesReader::new(alloc);
            Ok(Last::InNames(NamesFor::Taken(paired), reader))
        }
        _ => {
            let Paired {
                pending,
                kind,
                names,
                many,
            } = paired;
            let matching = modifiers(alloc, kind, names, many);
            within(
                alloc,
                stack,
                Open::Operating(pending, matching),
                text,
                token,
            )
        }
    }
}

/// No modifiers: lines match by all labels.
fn all_labels(alloc: Global) -> Matching
    ensures { result ≡ match_of All [] One [] }
{
    Matching {
        kind: MatchKind::All,
        names: List::new(alloc),
        many: Many::One,
        extra: List::new(alloc),
    }
}

/// Modifiers with no label taken over from the other side.
fn modifiers(alloc: Global, kind: MatchKind, names: List<Text>, many: Many) -> Matching
    ensures { result ≡ match_of kind names many [] }
{
    Matching {
        kind,
        names,
        many,
        extra: List::new(alloc),
    }
}

/// Where the right operand of an operator is wanted.
fn within(
    alloc: Global,
    stack: &mut Stack,
    frame: Open,
    text: &str,
    token: Token,
) -> Result<Last, StepError>
    requires stands { StandsIn text.now token }
    ensures { (len : ℕ) → token.at < len → Steps result (stack_of stack.new)
        (where_wanted len (the_frame frame ∷ the_frames (stack_of stack.old))
        (word_of text.now token) (class_of_word (word_of text.now token))) }
{
    stack.push(frame)?;
    by_nothing(alloc, stack, text, token)
}
