//! The lines that the commands of a script print.

ghost use Rattle.std.specs.Prelude.{◌≡◌, ◌≤◌, ◌+◌, ◌++◌, length, codes, decimal};
ghost use Rattle.vm_top.specs.Printed.{accepted_line, bad_query_line, refused_line, refusal_text};

use crate::query_fault::QueryFault;
use crate::short::{Short, put, put_number};
use vm_machine::Refusal;

/// The line of a body that was imported: how many batches and rows it has, and how many lines were
/// skipped.
pub fn accepted_line(batches: usize, rows: usize, skipped: u64) -> Short
    ensures { result.items ≡ accepted_line batches rows skipped }
{
    let mut line = Short::new();
    put(&mut line, b"accepted ");
    put_number(&mut line, batches as u64);
    put(&mut line, b" batches ");
    put_number(&mut line, rows as u64);
    put(&mut line, b" rows ");
    put_number(&mut line, skipped);
    put(&mut line, b" skipped\n");
    line
}

/// The line of a run that was begun.
pub fn run_line(run: u64) -> Short
    ensures { result.items ≡ codes "run " ++ decimal run ++ codes "\n" }
{
    let mut line = Short::new();
    put(&mut line, b"run ");
    put_number(&mut line, run);
    put(&mut line, b"\n");
    line
}

/// The line of a query that asks for nothing.
pub fn bad_query_line(fault: QueryFault) -> Short
    ensures { result.items ≡ bad_query_line fault }
{
    let mut line = Short::new();
    put(&mut line, b"refused ");
    match fault {
        QueryFault::BadRange => put(&mut line, b"bad range"),
        QueryFault::NotBuilt => put(&mut line, b"not built"),
    }
    put(&mut line, b"\n");
    line
}

/// The line of a command that the machine refused.
pub fn refused_line(why: Refusal) -> Short
    ensures { result.items ≡ refused_line why }
{
    let mut line = Short::new();
    put(&mut line, b"refused ");
    put_refusal(&mut line, why);
    put(&mut line, b"\n");
    line
}

fn put_refusal(line: &mut Short, why: Refusal)
    requires { length line.old.items ≤ 8 }
    ensures text { line.new.items ≡ line.old.items ++ refusal_text why }
    ensures room { length line.new.items ≤ 92 }
{
    match why {
        Refusal::PendingFull => put(line, b"pending full"),
        Refusal::ViewsFull => put(line, b"views full"),
        Refusal::UnknownRun { run } => put_numbered(line, b"unknown run ", run),
        Refusal::RunTaken { run } => put_numbered(line, b"run taken ", run),
        Refusal::Memory => put(line, b"out of memory"),
    }
}

fn put_numbered(line: &mut Short, words: &[u8], number: u64)
    requires { length line.old.items + length words.now ≤ 73 }
    ensures text { line.new.items ≡ line.old.items ++ words.now ++ decimal number }
    ensures room { length line.new.items ≤ length line.old.items + length words.now + 20 }
{
    put(line, words);
    put_number(line, number);
}
