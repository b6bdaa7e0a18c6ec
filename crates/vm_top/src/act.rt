//! The commands of a script on a machine, each with what it answers.

ghost use Rattle.std.specs.Prelude.{◌≡◌, ◌<◌, ◌^◌, ℕ, List as ListOf, None, IfOk, IfErr, OnOk};
ghost use Rattle.vm_machine.specs.Machine.{begin, read, end, close, run_of};
ghost use Rattle.vm_top.specs.Replay.{question_of, Answers, Asks, Accepts, Refuses, Imports};
ghost use Rattle.vm_top.specs.inner.Playing.{Gathers, IsInRange, Prints};

use crate::body::Body;
use crate::query_fault::QueryFault;
use crate::response::Response;
use std::alloc::{AllocError, Global};
use vm_base::List;
use vm_base::limits::MAX_TIME;
use vm_labels::Batch;
use vm_machine::{Evaluated, Machine, Question, Refusal};
use vm_script::read_selector;

/// Imports a body by batches, up to the first batch that is refused.
pub fn import_body(machine: &mut Machine, body: Body) -> Result<Response, AllocError>
    ensures answers { IfOk result (λ response. (passed : ListOf (ListOf ℕ)) → Gathers body passed
        → (text : ListOf ℕ) → Prints response text
        → Imports body.format body.time passed machine.old machine.new text) }
    ensures small { IfOk result IsInRange }
{
    let skipped = body.skipped();
    let rows = body.rows();
    let all = body.into_batches()?;
    let batches = all.len();
    match import_all(machine, all) {
        Ok(()) => Ok(Response::Accepted {
            batches,
            rows,
            skipped,
        }),
        Err(why) => Ok(Response::Refused { why }),
    }
}

fn import_all(machine: &mut Machine, batches: List<Batch>) -> Result<(), Refusal>
    ensures all { OnOk result (Accepts machine.old batches machine.new) }
    ensures refused { IfErr result (λ why. Refuses machine.old batches machine.new why) }
{
    for batch in batches.into_vec() {
        machine.import(batch)?;
    }
    Ok(())
}

/// Begins a run of the instant query of an expression. That the run's number is taken comes before
/// what is wrong with the query.
pub fn begin_query(
    alloc: Global,
    machine: &mut Machine,
    run: u64,
    time: u64,
    expression: &str,
) -> Response
    ensures answers { (text : ListOf ℕ) → Prints result text
        → Asks run (question_of time expression.now) machine.old machine.new text }
    ensures small { IsInRange result }
{
    if machine.is_open(run) {
        return Response::Refused {
            why: Refusal::RunTaken { run },
        };
    }
    match question_of(alloc, time, expression) {
        Ok(Ok(question)) => begin(alloc, machine, run, question),
        Ok(Err(fault)) => Response::BadQuery { fault },
        Err(AllocError) => Response::Refused {
            why: Refusal::Memory,
        },
    }
}

/// Begins a run of a question, whose number is free.
fn begin(alloc: Global, machine: &mut Machine, run: u64, question: Question) -> Response
    requires free { run_of run machine.old.runs ≡ None }
    requires time { question.time < 2 ^ 48 }
    ensures answers { (text : ListOf ℕ) → Prints result text
        → Answers run (begin run question) machine.old machine.new text }
    ensures small { IsInRange result }
{
    match machine.begin(alloc, run, question) {
        Ok(()) => Response::Begun { run },
        Err(why) => Response::Refused { why },
    }
}

/// The question for an expression's series at a time, or what is wrong with it.
fn question_of(
    alloc: Global,
    time: u64,
    expression: &str,
) -> Result<Result<Question, QueryFault>, AllocError>
    ensures value { IfOk result (λ asked. asked ≡ question_of time expression.now) }
    ensures small { IfOk result (λ asked. IfOk asked (λ question. question.time < 2 ^ 48)) }
{
    if time > MAX_TIME {
        return Ok(Err(QueryFault::BadRange));
    }
    match read_selector(alloc, expression)? {
        Some(selector) => Ok(Ok(Question { time, selector })),
        None => Ok(Err(QueryFault::NotBuilt)),
    }
}

/// Reads one series for a run.
pub fn read_series(machine: &mut Machine, run: u64) -> Response
    ensures answers { (text : ListOf ℕ) → Prints result text
        → Answers run (read run) machine.old machine.new text }
    ensures small { IsInRange result }
{
    match machine.read(run) {
        Ok(true) => Response::Read,
        Ok(false) => Response::Complete,
        Err(why) => Response::Refused { why },
    }
}

/// Ends a run, with its answer.
pub fn end_run(alloc: Global, machine: &mut Machine, run: u64) -> Response
    ensures answers { (text : ListOf ℕ) → Prints result text
        → Answers run (end run) machine.old machine.new text }
    ensures small { IsInRange result }
{
    match machine.end(alloc, run) {
        Ok(Evaluated { time, values }) => Response::Values { time, values },
        Err(why) => Response::Refused { why },
    }
}

/// Closes a run.
pub fn close_run(machine: &mut Machine, run: u64) -> Response
    ensures answers { (text : ListOf ℕ) → Prints result text
        → Answers run (close run) machine.old machine.new text }
    ensures small { IsInRange result }
{
    match machine.close(run) {
        Ok(()) => Response::Closed,
        Err(why) => Response::Refused { why },
    }
}
