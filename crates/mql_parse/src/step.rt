//! One step of the parser: one token.

ghost use Rattle.std.specs.Prelude.{◌≡◌, ◌<◌, ℕ};
ghost use Rattle.mql_lex.specs.Tokens.{StandsIn};
ghost use Rattle.mql_lists.specs.Classes.{class_of_word};
ghost use Rattle.mql_lists.specs.Words.{word_of};
ghost use Rattle.mql_parse.specs.Machine.{by};
ghost use Rattle.mql_parse.specs.inner.Stack.{stack_of};
ghost use Rattle.mql_parse.specs.inner.Views.{the_before, the_frames, Steps};

use crate::fault::StepError;
use crate::joining::by_joining;
use crate::measuring::by_measuring;
use crate::naming::{behind_braces, behind_names, by_names_wanted};
use crate::operand::{by_called, by_grouped, by_name, by_primary, by_regrouped};
use crate::reducing::go_on;
use crate::stack::Stack;
use crate::state::{Here, Last};
use crate::templating::by_templating;
use crate::wanted::by_nothing;
use mql_lex::Token;
use mql_lists::class_of;
use std::alloc::Global;

/// Takes one more token of the text.
pub(crate) fn step(
    alloc: Global,
    stack: &mut Stack,
    last: Last,
    text: &str,
    token: Token,
) -> Result<Last, StepError>
    requires stands { StandsIn text.now token }
    ensures { (len : ℕ) → token.at < len → Steps result (stack_of stack.new)
        (by len (the_frames (stack_of stack.old)) (the_before last) (word_of text.now token)
        (class_of_word (word_of text.now token))) }
{
    let at = token.at;
    let class = class_of(text, token);
    let here = Here { at, class };
    match last {
        Last::Nothing => by_nothing(alloc, stack, text, token),
        Last::Name(head) => by_name(alloc, stack, head, here),
        Last::Grouped(call) => by_grouped(stack, call, here),
        Last::Called(call) => by_called(alloc, stack, call, here),
        Last::Regrouped(call) => by_regrouped(alloc, stack, call, here),
        Last::NamesWanted(purpose) => by_names_wanted(alloc, purpose, class),
        Last::InNames(purpose, reader) => {
            let progress = reader.step(alloc, text, token)?;
            behind_names(stack, purpose, progress)
        }
        Last::InBraces(place, name, reader) => {
            let progress = reader.step(alloc, text, token)?;
            behind_braces(place, name, progress)
        }
        Last::Primary(expr) => by_primary(alloc, stack, expr, here),
        Last::Measuring(state) => by_measuring(alloc, stack, state, text, token),
        Last::Complete(expr) => go_on(alloc, stack, expr, here),
        Last::Joining(state) => by_joining(alloc, stack, state, text, token),
        Last::Templating(state) => by_templating(alloc, stack, state, text, token),
    }
}
