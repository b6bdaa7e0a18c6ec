//! The program's one call, with its theorem.

ghost use Rattle.std.specs.Prelude.{◌≡◌, ◌≤◌, false, map, string_bytes};
ghost use Rattle.vm_top.specs.Statuses.{IsDoneBy, IsNoted};
ghost use Rattle.vm_top.specs.Words.{asked};
ghost use Rattle.vm_top.specs.World.{world};

use crate::command::run;
use crate::note::write_note;
use crate::status::Status;
use std::alloc::Global;
use vm_outside::{Clock, Disk, Link, Patterns, Sink, Source};

/// The program: does what the words of its command line ask for, over the objects that it is
/// handed.
///
/// `last NAME TIME` reads lines of the Prometheus text format 0.0.4, and prints the reply to the
/// instant query NAME at TIME over these rows alone: of each series with this name the last sample
/// in the 300,000 ms that end at TIME. A line that goes wrong is skipped; a row without a time has
/// that of the clock, which is read once, before the input.
///
/// `replay` reads a script of imports and queries, one command a line, and plays it on a store in
/// memory: what a command prints is written before the next one is read. A line outside the
/// script's grammar ends it as `Refused`. It doesn't read the clock.
///
/// `--` ends the options. Any other words are `Usage`.
///
/// Where the status isn't `Ok`, a line `vmsingle: TEXT` is written to `notes`; it changes nothing
/// where that fails. No command touches a disk, link or patterns.
pub fn run_words<S: Source, K: Sink, N: Sink, D: Disk, L: Link, C: Clock, P: Patterns>(
    alloc: Global,
    words: &[String],
    input: &mut S,
    output: &mut K,
    notes: &mut N,
    disk: &mut D,
    link: &mut L,
    clock: &mut C,
    patterns: &mut P,
) -> Status
    requires { L.present link.old ≡ false }

    // What the words ask for is done, by the definitions, over the whole input; each other status
    // has its cause.
    ensures done { IsDoneBy (asked (map string_bytes words.now)) result
        (world (C.answers clock.old) (S.left input.old) (S.faults input.old) (K.taken output.old)
        (K.faults output.old))
        (world (C.answers clock.new) (S.left input.new) (S.faults input.new) (K.taken output.new)
        (K.faults output.new)) }
    ensures noted { IsNoted result (asked (map string_bytes words.now)) (S.left input.old)
        (N.taken notes.old) (N.taken notes.new) (N.faults notes.old) (N.faults notes.new) }

    // What stays.
    ensures disk { disk.new ≡ disk.old }
    ensures link { link.new ≡ link.old }
    ensures patterns { patterns.new ≡ patterns.old }

    // No count falls.
    ensures input_counted { S.faults input.old ≤ S.faults input.new }
    ensures output_counted { K.faults output.old ≤ K.faults output.new }
    ensures notes_counted { N.faults notes.old ≤ N.faults notes.new }
{
    match run(alloc, words, input, output, clock) {
        Ok(()) => Status::Ok,
        Err(fault) => {
            write_note(notes, fault);
            fault.status()
        }
    }
}
