ghost use Rattle.std.specs.Prelude.{◌≡◌, ◌<◌, ◌≤◌, length, IfOk};
ghost use Rattle.std.specs.Io.KnownBytes.{WriteAppends};

use crate::TRIES;
use std::io;
use std::io::{ErrorKind, Write};
use vm_outside::{Failed, Sink};

/// A writer as a `Sink`: for the program, standard output and standard error. As a sink it tells
/// contracts no content, but hands on what it takes: `handed_on` says so of a writer whose bytes
/// are known.
///
/// A write that a signal interrupts is tried again, up to 64 times in all. Every other error, and
/// the last of these, is a fault, and so is a write that takes nothing of a piece that isn't empty.
///
/// Nothing flushes the writer: it is one that hands each piece to the system at once.
#[derive(Drop)]
pub struct WriterSink<W: Write + Drop> {
    writer: W,
    /// How many calls failed, up to 2^64 - 1.
    failed: u64,
}

impl<W: Write + Drop> WriterSink<W> {
    /// The writer, with no fault counted yet.
    pub fn new(writer: W) -> WriterSink<W>
        ensures { result ≡ record { writer = writer; failed = 0 } }
    {
        WriterSink { writer, failed: 0 }
    }
}

impl<W: Write + Drop> Sink for WriterSink<W> {
    ghost use Rattle.std.specs.Prelude.{None, is_err, if◌then◌else◌};
    ghost use Rattle.vm_outside.specs.Outside.{raised};

    ghost taken = { λ _. None };

    ghost faults = { λ sink. sink.failed };

    fn write(&mut self, bytes: &[u8]) -> Result<usize, Failed>
        ensures within { IfOk result (λ n. n ≤ length bytes.now) }
        ensures some { IfOk result (λ n. 0 < length bytes.now → 0 < n) }
        ensures handed_on { WriteAppends (W.contents self.old.writer) (W.contents self.new.writer)
            result bytes.now }
        ensures counted { self.new.failed
            ≡ (if is_err result then raised self.old.failed else self.old.failed) }
    {
        match write_some(&mut self.writer, bytes) {
            Ok(n) if n > 0 || bytes.is_empty() => Ok(n),
            _ => {
                self.failed = self.failed.saturating_add(1);
                Err(Failed)
            }
        }
    }
}

fn write_some<W: Write>(writer: &mut W, bytes: &[u8]) -> io::Result<usize>
    ensures within { IfOk result (λ n. n ≤ length bytes.now) }
    ensures handed_on { WriteAppends (W.contents writer.old) (W.contents writer.new)
        result bytes.now }
{
    'tries: for _ in 1..TRIES {
        match writer.write(bytes) {
            Err(error) if error.kind() == ErrorKind::Interrupted => {}
            answer => return answer,
        }
    }
    writer.write(bytes)
}
