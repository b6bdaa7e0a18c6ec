//! A query that was begun and isn't ended, whatever is asked.

ghost use Rattle.std.specs.Prelude.{◌≡◌, [], ◌∷◌, ◌++◌, map, OnOk, OnErr};
ghost use Rattle.std.specs.Option.{option_copied};
ghost use Rattle.vm_machine.specs.Machine.{run_of, without_run, read_more};

use std::alloc::AllocError;

/// A query that was begun. It sees the rows that were accepted by then, whatever comes later.
#[derive(Debug, Drop)]
pub struct Run<Q> {
    pub number: u64,
    pub question: Q,
    /// How many batches were accepted when it was begun.
    pub accepted: usize,
    /// How many series the question selects of their rows.
    pub series: usize,
    /// How many of these were read.
    pub read: usize,
}

/// The run of a number.
pub fn run_of<Q>(runs: &[Run<Q>], number: u64) -> Option<&Run<Q>>
    ensures { option_copied result ≡ run_of number runs.now }
{
    runs.iter().find(|run| run.number == number)
}

/// Puts a run behind the others.
pub fn add_run<Q: Drop>(runs: &mut Vec<Run<Q>>, run: Run<Q>) -> Result<(), AllocError>
    ensures ok { OnOk result (runs.new.items ≡ runs.old.items ++ run ∷ []) }
    ensures err { OnErr result (runs.new.items ≡ runs.old.items) }
{
    runs.push(run)?;
    Ok(())
}

/// Takes out the run of a number.
pub fn remove_run<Q: Drop>(runs: &mut Vec<Run<Q>>, number: u64)
    ensures { runs.new.items ≡ without_run number runs.old.items }
{
    runs.retain(|run| run.number != number);
}

#[tactic(auto, using(crate::proofs::RunLaws::changed_one))]
/// Counts one series more as read by the run of a number, where one is left.
pub fn count_read<Q>(runs: &mut Vec<Run<Q>>, number: u64)
    ensures { runs.new.items ≡ map (read_more number) runs.old.items }
{
    for i in 0..runs.len() {
        count_one(&mut runs[i], number);
    }
}

fn count_one<Q>(run: &mut Run<Q>, number: u64)
    ensures { run.new ≡ read_more number run.old }
{
    if run.number == number && run.read < run.series {
        run.read += 1;
    }
}
