//! The machine that keeps the accepted batches in one list.

ghost use Rattle.std.specs.Prelude.{◌≡◌, [], ◌++◌, List as ListOf, take, Ok, None, ◌<◌, ◌^◌, IfOk, OnOk, if◌then◌else◌};
ghost use Rattle.vm_labels.specs.declared.row.Row.{Row as RowOf};
ghost use Rattle.vm_machine.specs.Found.{found as found_in};
ghost use Rattle.vm_machine.specs.Eval.{eval, instant};
ghost use Rattle.std.specs.Option.{is_some};
ghost use Rattle.vm_machine.specs.Machine.{run_of, rows_of, Steps, import, begin, read, end, close, accepted, begun, was_read, complete, values, closed, as_answer};

use crate::found::Found;
use crate::question::{Evaluated, Question, Valued};
use crate::refusal::Refusal;
use crate::run::{Run, add_run, count_read, remove_run, run_of};
use std::alloc::{AllocError, Global};
use std::marker::Model;
use vm_base::List;
use vm_base::limits::{MAX_PENDING_BATCHES, MAX_PENDING_ROWS, MAX_VIEWS};
use vm_labels::{Batch, Row};

/// A store that keeps its batches in one list, in memory alone: none would survive a stop. It
/// removes no duplicates, and answers instant queries.
#[derive(Drop)]
pub struct Machine {
    accepted: List<Batch>,
    /// How many rows the accepted batches have.
    rows: usize,
    runs: Vec<Run<Question>>,
}

impl Model for Machine {
    ghost use Rattle.std.specs.Prelude.{◌≡◌, ◌≤◌};
    ghost use Rattle.vm_machine.specs.Batches.{row_count};
    ghost use Rattle.vm_machine.specs.Machine.{State};
    ghost use Rattle.vm_machine.specs.declared.question.Question.{Question};
    ghost use Rattle.vm_machine.specs.inner.InRange.{AreInRange};

    ghost Value = { State Question };

    ghost view = { λ m. record { accepted = m.accepted; durable = 0; interval = 0; runs = m.runs.items } };

    ghost invariant = { λ m. (m.rows ≡ row_count m.accepted) × (m.rows ≤ 4194304) × AreInRange m.runs.items };
}

impl Machine {
    /// A machine that accepted nothing yet. It takes no memory.
    pub fn new(alloc: Global) -> Machine
        ensures { result ≡ record { accepted = []; durable = 0; interval = 0; runs = [] } }
    {
        Machine {
            accepted: List::new(alloc),
            rows: 0,
            runs: Vec::new(alloc),
        }
    }

    /// Takes a batch behind those that were accepted.
    pub fn import(&mut self, batch: Batch) -> Result<(), Refusal>
        ensures { Steps instant self.old (import batch) self.new
            (as_answer (λ _. accepted) result) }
    {
        let rows = self.rows.saturating_add(batch.rows.len());
        if rows as u64 > MAX_PENDING_ROWS || self.accepted.len() as u64 >= MAX_PENDING_BATCHES {
            return Err(Refusal::PendingFull);
        }
        self.accepted.push(batch)?;
        self.rows = rows;
        Ok(())
    }

    /// Whether a run of this number is open.
    pub fn is_open(&self, number: u64) -> bool
        ensures { result ≡ is_some (run_of number self.now.runs) }
    {
        run_of(&self.runs, number).is_some()
    }

    #[tactic(auto, using(crate::proofs::FoundLaws::found_length, crate::proofs::RunLaws::begins))]
    /// Begins a run of a question, over the rows that are accepted now.
    pub fn begin(&mut self, alloc: Global, number: u64, question: Question) -> Result<(), Refusal>
        requires free { run_of number self.old.runs ≡ None }
        requires time { question.time < 2 ^ 48 }
        ensures { Steps instant self.old (begin number question) self.new
            (as_answer (λ _. begun) result) }
    {
        if self.runs.len() as u64 >= MAX_VIEWS {
            return Err(Refusal::ViewsFull);
        }
        let series = find(alloc, &question, self.accepted.as_slice())?.len();
        let run = Run {
            number,
            question,
            accepted: self.accepted.len(),
            series,
            read: 0,
        };
        add_run(&mut self.runs, run)?;
        Ok(())
    }

    #[tactic(auto, using(crate::proofs::RunLaws::times))]
    /// Reads one series of a run. Whether there was one that it hadn't read.
    pub fn read(&mut self, number: u64) -> Result<bool, Refusal>
        ensures { Steps instant self.old (read number) self.new
            (as_answer (λ some. if some then was_read else complete) result) }
    {
        let Some(run) = run_of(&self.runs, number) else {
            return Err(Refusal::UnknownRun { run: number });
        };
        if run.read >= run.series {
            return Ok(false);
        }
        count_read(&mut self.runs, number);
        Ok(true)
    }

    #[tactic(auto, using(crate::proofs::RunLaws::times))]
    /// Ends a run: what its question comes to.
    pub fn end(&mut self, alloc: Global, number: u64) -> Result<Evaluated, Refusal>
        ensures step { Steps instant self.old (end number) self.new (as_answer values result) }
        ensures time { IfOk result (λ evaluated. evaluated.time < 2 ^ 48) }
    {
        let Some(run) = run_of(&self.runs, number) else {
            return Err(Refusal::UnknownRun { run: number });
        };
        let time = run.question.time;
        let values = values_of(alloc, run, self.accepted.as_slice());
        remove_run(&mut self.runs, number);
        let values = values?;
        Ok(Evaluated { time, values })
    }

    #[tactic(auto, using(crate::proofs::RunLaws::times))]
    /// Closes a run.
    pub fn close(&mut self, number: u64) -> Result<(), Refusal>
        ensures { Steps instant self.old (close number) self.new (as_answer (λ _. closed) result) }
    {
        if !self.is_open(number) {
            return Err(Refusal::UnknownRun { run: number });
        }
        remove_run(&mut self.runs, number);
        Ok(())
    }
}

/// The values that the question of a run comes to.
#[tactic(auto, using(crate::proofs::FoundLaws::found_values))]
fn values_of(
    alloc: Global,
    run: &Run<Question>,
    accepted: &[Batch],
) -> Result<List<Valued>, AllocError>
    ensures { IfOk result (λ values. values
        ≡ eval 0 run.now.question (rows_of (take run.now.accepted accepted.now))) }
{
    let found = find(alloc, &run.question, first_of(accepted, run.accepted))?;
    found.into_values(alloc)
}

/// The series that a question selects of the rows of batches.
#[tactic(auto, using(crate::proofs::FoundLaws::found_empty))]
fn find(alloc: Global, question: &Question, batches: &[Batch]) -> Result<Found, AllocError>
    ensures { IfOk result (λ f. f ≡ found_in question.now (rows_of batches.now)) }
{
    let mut found = Found::new(alloc);
    for batch in batches {
        add_all(&mut found, alloc, question, batch.rows.as_slice())?;
    }
    Ok(found)
}

fn add_all(
    found: &mut Found,
    alloc: Global,
    question: &Question,
    rows: &[Row],
) -> Result<(), AllocError>
    ensures { OnOk result ((before : ListOf RowOf) → found.old ≡ found_in question.now before →
        found.new ≡ found_in question.now (before ++ rows.now)) }
{
    for row in rows {
        found.add(alloc, question, row)?;
    }
    Ok(())
}

fn first_of(batches: &[Batch], count: usize) -> &[Batch]
    ensures { result.now ≡ take count batches.now }
{
    &batches[..count.min(batches.len())]
}
