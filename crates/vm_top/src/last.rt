//! `last NAME TIME`: the reply over an input that is read to its end.

ghost use Rattle.std.specs.Prelude.{◌≡◌, ◌≤◌, ◌<◌, ◌^◌, ◌++◌, ℕ, [], List as ListOf, length, IfOk, OnOk, OnErr, IsErrOf, ◌⊎◌};
ghost use Rattle.std.specs.Option.{option_map};
ghost use Rattle.vm_labels.specs.declared.row.Row.{Row};
ghost use Rattle.vm_lines.specs.Lines.{lines};
ghost use Rattle.vm_machine.specs.Found.{found as found_in};
ghost use Rattle.vm_outside.specs.Outside.{Told, Rose};
ghost use Rattle.vm_promtext.specs.Means.{rows_of};
ghost use Rattle.vm_promtext.specs.Reading.{reading};
ghost use Rattle.vm_top.specs.Last.{named, question, IsLastAnswer};
ghost use Rattle.vm_top.specs.inner.Reading.{IsLineOf};
ghost use Rattle.vm_top.specs.Rows.{or_none};
ghost use Rattle.vm_top.specs.inner.Said.{rows};
ghost use Rattle.vm_top.specs.Promise.{IsShort};

use crate::fault::Fault;
use crate::input_lines::InputLines;
use crate::reply::reply;
use std::alloc::{AllocError, Global};
use vm_base::limits::MAX_IMPORT_LINE;
use vm_base::{List, Text};
use vm_labels::{Filter, FilterOp, Selector};
use vm_lines::Step;
use vm_machine::{Found, Question};
use vm_outside::Source;
use vm_promtext::{Line, read_line};

/// The answer of `last NAME TIME` over an input, which is read to its end. A line without a time
/// has the time `now`.
pub fn last_answer<S: Source>(
    alloc: Global,
    name: &str,
    time: u64,
    now: u64,
    input: &mut S,
) -> Result<Vec<u8>, Fault>
    requires time { time < 2 ^ 48 }
    requires now { now < 2 ^ 48 }

    // What `Ok` holds.
    ensures body { IfOk result (λ body. Told (S.left input.old) (λ bytes.
        IsLastAnswer name.now time now bytes body.items)) }
    ensures short { OnOk result (Told (S.left input.old) IsShort) }
    ensures end { OnOk result (S.left input.new ≡ option_map (λ _. []) (S.left input.old)) }

    // When each error comes.
    ensures input_fault { IsErrOf result Fault.Input
        → Rose (S.faults input.old) (S.faults input.new) }
    ensures too_long { IsErrOf result Fault.InputTooLong → Told (S.left input.old) (λ bytes.
        2 ^ 62 ≤ length bytes) }
    ensures others { OnErr result (IsErrOf result Fault.Input ⊎ IsErrOf result Fault.InputTooLong
        ⊎ IsErrOf result Fault.Memory) }
    ensures counted { S.faults input.old ≤ S.faults input.new }
{
    let question = question(alloc, name, time)?;
    let found = find_in(alloc, &question, now, input)?;
    let values = found.into_values(alloc)?;
    let body = reply(alloc, time, values.as_slice())?;
    Ok(body)
}

/// The instant query of a name at a time.
fn question(alloc: Global, name: &str, time: u64) -> Result<Question, AllocError>
    ensures { IfOk result (λ asked. asked ≡ question name.now time) }
{
    let selector = named(alloc, name)?;
    Ok(Question { time, selector })
}

/// The series of a name.
pub fn named(alloc: Global, name: &str) -> Result<Selector, AllocError>
    ensures { IfOk result (λ selector. selector ≡ named name.now) }
{
    let mut filters = List::new(alloc);
    filters.push(Filter {
        name: Text::from_str(alloc, "__name__")?,
        op: FilterOp::Equal,
        value: Text::from_str(alloc, name)?,
    })?;
    let mut lists = List::new(alloc);
    lists.push(filters)?;
    Ok(Selector { lists })
}

/// What a question finds in the lines of an input, which is read to its end.
fn find_in<S: Source>(
    alloc: Global,
    question: &Question,
    now: u64,
    input: &mut S,
) -> Result<Found, Fault>
    requires { now < 2 ^ 48 }
    ensures found { IfOk result (λ found. Told (S.left input.old) (λ bytes.
        found ≡ found_in question.now (rows now (lines bytes)))) }
    ensures short { OnOk result (Told (S.left input.old) IsShort) }
    ensures end { OnOk result (S.left input.new ≡ option_map (λ _. []) (S.left input.old)) }
    ensures input_fault { IsErrOf result Fault.Input
        → Rose (S.faults input.old) (S.faults input.new) }
    ensures too_long { IsErrOf result Fault.InputTooLong → Told (S.left input.old) (λ bytes.
        2 ^ 62 ≤ length bytes) }
    ensures others { OnErr result (IsErrOf result Fault.Input ⊎ IsErrOf result Fault.InputTooLong
        ⊎ IsErrOf result Fault.Memory) }
    ensures counted { S.faults input.old ≤ S.faults input.new }
{
    let mut lines = InputLines::new(alloc)?;
    let mut found = Found::new(alloc);
    'lines: while let Some(step) = lines.advance(input)? {
        let line = read_step(alloc, step, lines.line(), now)?;
        add_line(alloc, &mut found, question, line)?;
    }
    Ok(found)
}

/// What a line says that was come to.
#[tactic(auto, using(crate::proofs::InputLaws::reading_long))]
pub fn read_step(alloc: Global, step: Step, shown: &[u8], now: u64) -> Result<Line, AllocError>
    requires { now < 2 ^ 48 }
    ensures { IfOk result
        (λ said. (line : ListOf ℕ) → IsLineOf step shown.now line → said ≡ reading now line) }
{
    match step {
        Step::Line => read_line(alloc, shown, now),
        Step::TooLong | Step::End => Ok(Line::Skipped {
            at: MAX_IMPORT_LINE,
        }),
    }
}

fn add_line(
    alloc: Global,
    found: &mut Found,
    question: &Question,
    line: Line,
) -> Result<(), AllocError>
    ensures { OnOk result ((before : ListOf Row) → found.old ≡ found_in question.now before →
        found.new ≡ found_in question.now (before ++ or_none (rows_of line))) }
{
    if let Line::Row(row) = line {
        found.add(alloc, question, &row)?;
    }
    Ok(())
}
