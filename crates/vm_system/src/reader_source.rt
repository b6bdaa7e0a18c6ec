ghost use Rattle.std.specs.Prelude.{◌≡◌, ◌≤◌, length, IfOk};
ghost use Rattle.std.specs.Io.KnownBytes.{ReadConsumes};

use crate::TRIES;
use std::io;
use std::io::{ErrorKind, Read};
use vm_outside::{Failed, Source};

/// A reader as a `Source`: for the program, standard input. As a source it tells contracts no
/// content, but hands on what the reader gives: `handed_on` says so of a reader whose bytes are
/// known.
///
/// A read that a signal interrupts is tried again, up to 64 times in all. Every other error, and
/// the last of these, is a fault.
#[derive(Drop)]
pub struct ReaderSource<R: Read + Drop> {
    reader: R,
    /// How many calls failed, up to 2^64 - 1.
    failed: u64,
}

impl<R: Read + Drop> ReaderSource<R> {
    /// What the reader has left, with no fault counted yet.
    pub fn new(reader: R) -> ReaderSource<R>
        ensures { result ≡ record { reader = reader; failed = 0 } }
    {
        ReaderSource { reader, failed: 0 }
    }
}

impl<R: Read + Drop> Source for ReaderSource<R> {
    ghost use Rattle.std.specs.Prelude.{None, is_err, if◌then◌else◌};
    ghost use Rattle.vm_outside.specs.Outside.{raised};

    ghost left = { λ _. None };

    ghost faults = { λ source. source.failed };

    fn read(&mut self, into: &mut [u8]) -> Result<usize, Failed>
        ensures within { IfOk result (λ n. n ≤ length into.old) }
        ensures handed_on { ReadConsumes (R.remaining self.old.reader) (R.remaining self.new.reader)
            result into.new }
        ensures counted { self.new.failed
            ≡ (if is_err result then raised self.old.failed else self.old.failed) }
    {
        match read_some(&mut self.reader, into) {
            Ok(n) => Ok(n),
            Err(_) => {
                self.failed = self.failed.saturating_add(1);
                Err(Failed)
            }
        }
    }
}

fn read_some<R: Read>(reader: &mut R, into: &mut [u8]) -> io::Result<usize>
    ensures within { IfOk result (λ n. n ≤ length into.new) }
    ensures handed_on { ReadConsumes (R.remaining reader.old) (R.remaining reader.new)
        result into.new }
{
    'tries: for _ in 1..TRIES {
        match reader.read(into) {
            Err(error) if error.kind() == ErrorKind::Interrupted => {}
            answer => return answer,
        }
    }
    reader.read(into)
}
