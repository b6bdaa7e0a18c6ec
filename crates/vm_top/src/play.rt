//! `replay`: the commands of a script, done one after the other as they are read.

ghost use Rattle.std.specs.Prelude.{◌≡◌, ◌≤◌, ◌^◌, ◌+◌, ◌<◌, ℕ, List as ListOf, [], length, IfOk, IfErr, IfSome, Some, OnOk, OnErr, IsErrOf};
ghost use Rattle.std.specs.Option.{option_map};
ghost use Rattle.vm_lines.specs.Reading.{KnowsEnd};
ghost use Rattle.vm_outside.specs.Outside.{Rose, Told};
ghost use Rattle.vm_script.specs.Command.{command_of, IsBounded};
ghost use Rattle.vm_top.specs.inner.Playing.{PlaysCommand, PlaysLine, Prints, IsInRange, IsBrokenBy, BreaksOff, CanPlay, Ends};
ghost use Rattle.vm_top.specs.inner.Reading.{Takes, GoesOver, IsLineOf};

use crate::act::{begin_query, close_run, end_run, import_body, read_series};
use crate::body::read_body;
use crate::fault::Fault;
use crate::input_lines::InputLines;
use crate::response::{Response, write_response};
use std::alloc::{AllocError, Global};
use vm_lines::Step;
use vm_machine::Machine;
use vm_outside::{Sink, Source};
use vm_script::{Command, read_command};

/// Plays a script on a machine to which nothing happened yet. What a command prints is written
/// before the next command is read.
pub fn play<S: Source, K: Sink>(alloc: Global, input: &mut S, output: &mut K) -> Result<(), Fault>
    ensures ends { Told (S.left input.old)
        (Ends result (S.left input.new) (K.taken output.old) (K.taken output.new)) }
    ensures read { OnOk result (S.left input.new ≡ option_map (λ _. []) (S.left input.old)) }
    ensures known { IsErrOf result Fault.Usage → ⊥ }
    ensures input_fault { IsErrOf result Fault.Input
        → Rose (S.faults input.old) (S.faults input.new) }
    ensures output_fault { IsErrOf result Fault.Output →
        Rose (K.faults output.old) (K.faults output.new) }
    ensures input_counted { S.faults input.old ≤ S.faults input.new }
    ensures output_counted { K.faults output.old ≤ K.faults output.new }
{
    let mut lines = InputLines::new(alloc)?;
    let mut machine = Machine::new(alloc);
    'lines: while let Some(step) = lines.advance(input)? {
        let response = play_line(alloc, &mut machine, &mut lines, step, input)?;
        write_response(alloc, output, response)?;
    }
    Ok(())
}

/// Does the command of the line that was come to.
fn play_line<S: Source>(
    alloc: Global,
    machine: &mut Machine,
    lines: &mut InputLines,
    step: Step,
    input: &mut S,
) -> Result<Response, Fault>
    requires { KnowsEnd lines.old.reading (S.left input.old) }

    // What `Ok` holds.
    ensures plays { IfOk result
        (λ response. (line : ListOf ℕ) → IsLineOf step lines.old.reading.line line
        → (text : ListOf ℕ) → Prints response text
        → PlaysLine line machine.old machine.new lines.old lines.new (S.left input.old)
        (S.left input.new) text) }
    ensures small { IfOk result IsInRange }
    ensures over { OnOk result
        (GoesOver lines.old lines.new (S.left input.old) (S.left input.new)) }

    // When each error comes.
    ensures broken { IfErr result
        (λ fault. (line : ListOf ℕ) → IsLineOf step lines.old.reading.line line
        → IsBrokenBy fault (command_of line) lines.old (S.left input.old)) }
    ensures breaks { IfErr result
        (λ fault. (line : ListOf ℕ) → IsLineOf step lines.old.reading.line line
        → BreaksOff fault (command_of line) lines.old (S.left input.old) (S.left input.new)) }
    ensures known { IfErr result CanPlay }
    ensures input_fault { IsErrOf result Fault.Input
        → Rose (S.faults input.old) (S.faults input.new) }
    ensures too_long { IsErrOf result Fault.InputTooLong → Told (S.left input.old) (λ bytes.
        2 ^ 62 ≤ lines.old.reading.taken + length bytes) }

    // What each call does to the bytes.
    ensures takes { Takes lines.old lines.new (S.left input.old) (S.left input.new) }
    ensures end { KnowsEnd lines.new.reading (S.left input.new) }
    ensures counted { S.faults input.old ≤ S.faults input.new }
{
    let command = command_at(alloc, step, lines.line())?;
    match command {
        Some(command) => play_command(alloc, machine, lines, input, command),
        None => Err(Fault::BadLine {
            line: lines.number(),
        }),
    }
}

/// The command of the line that was come to.
#[tactic(auto, using(crate::proofs::PlayLaws::command_of_long))]
fn command_at(alloc: Global, step: Step, shown: &[u8]) -> Result<Option<Command>, AllocError>
    ensures value { IfOk result (λ command. (line : ListOf ℕ) → IsLineOf step shown.now line
        → command ≡ command_of line) }
    ensures bounded { IfOk result (λ command. IfSome command IsBounded) }
{
    match step {
        Step::Line => read_command(alloc, shown),
        Step::TooLong | Step::End => Ok(None),
    }
}

/// Does a command whose line was come to.
fn play_command<S: Source>(
    alloc: Global,
    machine: &mut Machine,
    lines: &mut InputLines,
    input: &mut S,
    command: Command,
) -> Result<Response, Fault>
    requires bounded { IsBounded command }
    requires knows { KnowsEnd lines.old.reading (S.left input.old) }
    ensures plays { IfOk result (λ response. (text : ListOf ℕ) → Prints response text
        → PlaysCommand command machine.old machine.new lines.old lines.new (S.left input.old)
        (S.left input.new) text) }
    ensures small { IfOk result IsInRange }
    ensures over { OnOk result
        (GoesOver lines.old lines.new (S.left input.old) (S.left input.new)) }
    ensures broken { IfErr result
        (λ fault. IsBrokenBy fault (Some command) lines.old (S.left input.old)) }
    ensures breaks { IfErr result (λ fault.
        BreaksOff fault (Some command) lines.old (S.left input.old) (S.left input.new)) }
    ensures known { IfErr result CanPlay }
    ensures input_fault { IsErrOf result Fault.Input
        → Rose (S.faults input.old) (S.faults input.new) }
    ensures too_long { IsErrOf result Fault.InputTooLong → Told (S.left input.old) (λ bytes.
        2 ^ 62 ≤ lines.old.reading.taken + length bytes) }
    ensures takes { Takes lines.old lines.new (S.left input.old) (S.left input.new) }
    ensures end { KnowsEnd lines.new.reading (S.left input.new) }
    ensures counted { S.faults input.old ≤ S.faults input.new }
{
    match command {
        Command::Import { format, now } => {
            let number = lines.number();
            match read_body(alloc, format, now, lines, input)? {
                Some(body) => Ok(import_body(machine, body)?),
                None => Err(Fault::BadLine { line: number }),
            }
        }
        Command::Query {
            run,
            time,
            expression,
        } => Ok(begin_query(alloc, machine, run, time, expression.as_str())),
        Command::Run { run } => Ok(read_series(machine, run)),
        Command::End { run } => Ok(end_run(alloc, machine, run)),
        Command::Close { run } => Ok(close_run(machine, run)),
    }
}
