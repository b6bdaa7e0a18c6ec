//! What a command of a script answers, and how that is written.

ghost use Rattle.std.specs.Prelude.{◌≤◌, ◌<◌, ◌^◌, ℕ, length, take, OnOk, OnErr, IsErrOf};
ghost use Rattle.vm_outside.specs.Outside.{Rose, Takes};
ghost use Rattle.vm_top.specs.inner.Playing.{IsInRange, Writes};
ghost use Rattle.vm_top.specs.declared.response.Response.TheVariants as response;

use crate::fault::Fault;
use crate::printed::{accepted_line, bad_query_line, refused_line, run_line};
use crate::query_fault::QueryFault;
use crate::reply::reply;
use std::alloc::{AllocError, Global};
use vm_base::List;
use vm_machine::{Refusal, Valued};
use vm_outside::{Failed, Sink, write_all};

/// What a command answered.
#[derive(Drop)]
pub enum Response {
    /// A body was imported: how many batches and rows it has, and how many of its lines were
    /// skipped.
    Accepted {
        batches: usize,
        rows: usize,
        skipped: u64,
    },
    /// A run was begun.
    Begun {
        run: u64,
    },
    /// A run read one series.
    Read,
    /// A run has no series left to read.
    Complete,
    /// A run was ended: the values of its question, at a time in ms.
    Values {
        time: u64,
        values: List<Valued>,
    },
    /// A run was closed.
    Closed,
    /// A query asks for nothing.
    BadQuery {
        fault: QueryFault,
    },
    /// The machine refused it.
    Refused {
        why: Refusal,
    },
}

/// Writes what a command answered. Where there is no memory for a reply it writes the line that
/// says so; no other answer takes memory.
pub fn write_response<K: Sink>(
    alloc: Global,
    output: &mut K,
    response: Response,
) -> Result<(), Fault>
    requires { IsInRange response }
    ensures writes { Writes response result (K.taken output.old) (K.taken output.new) }
    ensures only { OnErr result (IsErrOf result Fault.Output) }
    ensures failed { OnErr result (Rose (K.faults output.old) (K.faults output.new)) }
    ensures counted { K.faults output.old ≤ K.faults output.new }
{
    match response {
        Response::Accepted {
            batches,
            rows,
            skipped,
        } => write_text(output, &accepted_line(batches, rows, skipped)),
        Response::Begun { run } => write_text(output, &run_line(run)),
        Response::Read => write_text(output, b"read\n"),
        Response::Complete => write_text(output, b"complete\n"),
        Response::Values { time, values } => write_reply(alloc, output, time, &values),
        Response::Closed => write_text(output, b"closed\n"),
        Response::BadQuery { fault } => write_text(output, &bad_query_line(fault)),
        Response::Refused { why } => write_text(output, &refused_line(why)),
    }
}

/// Writes a reply, or the line that there is no memory for it.
fn write_reply<K: Sink>(
    alloc: Global,
    output: &mut K,
    time: u64,
    values: &List<Valued>,
) -> Result<(), Fault>
    requires { time < 2 ^ 48 }
    ensures writes { Writes (response.Values time values.now) result (K.taken output.old)
        (K.taken output.new) }
    ensures only { OnErr result (IsErrOf result Fault.Output) }
    ensures failed { OnErr result (Rose (K.faults output.old) (K.faults output.new)) }
    ensures counted { K.faults output.old ≤ K.faults output.new }
{
    match reply(alloc, time, values.as_slice()) {
        Ok(body) => write_text(output, &body),
        Err(AllocError) => write_text(output, &refused_line(Refusal::Memory)),
    }
}

fn write_text<K: Sink>(output: &mut K, text: &[u8]) -> Result<(), Fault>
    ensures all { OnOk result (Takes (K.taken output.old) text.now (K.taken output.new)) }
    ensures part { OnErr result ((n : ℕ) × (n ≤ length text.now)
        × Takes (K.taken output.old) (take n text.now) (K.taken output.new)) }
    ensures only { OnErr result (IsErrOf result Fault.Output) }
    ensures failed { OnErr result (Rose (K.faults output.old) (K.faults output.new)) }
    ensures counted { K.faults output.old ≤ K.faults output.new }
{
    match write_all(output, text) {
        Ok(()) => Ok(()),
        Err(Failed) => Err(Fault::Output),
    }
}
