//! What a command line asks for, done over its input, its output and the clock.

ghost use Rattle.std.specs.Prelude.{◌≤◌, Some, ◌<◌, ◌^◌, map, string_bytes, IfErr};
ghost use Rattle.vm_outside.specs.Outside.{Told};
ghost use Rattle.vm_top.specs.Last.{last_promise};
ghost use Rattle.vm_top.specs.Statuses.{IsDone, IsDoneBy, IsCause, outcome};
ghost use Rattle.vm_top.specs.Words.{asked, last};
ghost use Rattle.vm_top.specs.World.{world};

use crate::fault::Fault;
use crate::last::last_answer;
use crate::play::play;
use crate::words::{Task, asked};
use std::alloc::Global;
use vm_outside::{Clock, Failed, Sink, Source, write_all};

/// Does what the words of a command line ask for.
pub fn run<S: Source, K: Sink, C: Clock>(
    alloc: Global,
    words: &[String],
    input: &mut S,
    output: &mut K,
    clock: &mut C,
) -> Result<(), Fault>
    ensures done { IsDoneBy (asked (map string_bytes words.now)) (outcome result)
        (world (C.answers clock.old) (S.left input.old) (S.faults input.old) (K.taken output.old)
        (K.faults output.old))
        (world (C.answers clock.new) (S.left input.new) (S.faults input.new) (K.taken output.new)
        (K.faults output.new)) }
    ensures cause { IfErr result (λ fault. Told (S.left input.old)
        (IsCause fault (asked (map string_bytes words.now)))) }

    // No count falls.
    ensures input_counted { S.faults input.old ≤ S.faults input.new }
    ensures output_counted { K.faults output.old ≤ K.faults output.new }
{
    match asked(words) {
        Some(Task::Last { name, time }) => run_last(alloc, name, time, input, output, clock),
        Some(Task::Replay) => play(alloc, input, output),
        None => Err(Fault::Usage),
    }
}

/// Does `last NAME TIME`.
fn run_last<S: Source, K: Sink, C: Clock>(
    alloc: Global,
    name: &str,
    time: u64,
    input: &mut S,
    output: &mut K,
    clock: &mut C,
) -> Result<(), Fault>
    requires { time < 2 ^ 48 }
    ensures done { IsDone (last_promise name.now time) (outcome result)
        (world (C.answers clock.old) (S.left input.old) (S.faults input.old) (K.taken output.old)
        (K.faults output.old))
        (world (C.answers clock.new) (S.left input.new) (S.faults input.new) (K.taken output.new)
        (K.faults output.new)) }
    ensures cause { IfErr result
        (λ fault. Told (S.left input.old) (IsCause fault (Some (last name.now time)))) }
    ensures input_counted { S.faults input.old ≤ S.faults input.new }
    ensures output_counted { K.faults output.old ≤ K.faults output.new }
{
    let now = clock.now_ms();
    let body = last_answer(alloc, name, time, now, input)?;
    match write_all(output, &body) {
        Ok(()) => Ok(()),
        Err(Failed) => Err(Fault::Output),
    }
}
