//! The line that says why a command ended.

ghost use Rattle.std.specs.Prelude.{◌≡◌, ◌≤◌, ◌++◌, length};
ghost use Rattle.vm_top.specs.Statuses.{IsNote, note_of, text_of};

use crate::fault::Fault;
use crate::short::{Short, put, put_number};
use vm_outside::{Sink, write_all};

/// Writes the line that says a fault. A fault of `notes` itself is left aside.
pub fn write_note<N: Sink>(notes: &mut N, fault: Fault)
    ensures written { IsNote (note_of fault) (N.taken notes.old) (N.taken notes.new)
        (N.faults notes.old) (N.faults notes.new) }
    ensures counted { N.faults notes.old ≤ N.faults notes.new }
{
    write_line(notes, &note_of(fault));
}

fn write_line<N: Sink>(notes: &mut N, line: &[u8])
    ensures written { IsNote line.now (N.taken notes.old) (N.taken notes.new)
        (N.faults notes.old) (N.faults notes.new) }
    ensures counted { N.faults notes.old ≤ N.faults notes.new }
{
    let _ = write_all(notes, line);
}

fn note_of(fault: Fault) -> Short
    ensures { result.items ≡ note_of fault }
{
    let mut note = Short::new();
    put(&mut note, b"vmsingle: ");
    put_text(&mut note, fault);
    put(&mut note, b"\n");
    note
}

fn put_text(note: &mut Short, fault: Fault)
    requires { length note.old.items ≤ 10 }
    ensures text { note.new.items ≡ note.old.items ++ text_of fault }
    ensures room { length note.new.items ≤ 92 }
{
    match fault {
        Fault::Usage => put(note, b"usage"),
        Fault::InputTooLong => put(note, b"input too long"),
        Fault::BadLine { line } => {
            put(note, b"bad script line ");
            put_number(note, line);
        }
        Fault::Input => put(note, b"input fault"),
        Fault::Output => put(note, b"output fault"),
        Fault::Memory => put(note, b"out of memory"),
    }
}
