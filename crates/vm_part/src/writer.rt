//! A part on its way into a file.

ghost use Rattle.std.specs.Prelude.{◌≡◌, ◌^◌, ◌<◌, ◌≤◌, length, IfOk, OnOk, OnErr, IsTrue};
ghost use Rattle.vm_outside.specs.Disk.{OnlyChanges, Passes, Torn};
ghost use Rattle.vm_outside.specs.Outside.{Rose};
ghost use Rattle.vm_part.specs.Files.{HasWritten, IsDurable, IsStep, next_len};

use crate::{MemPart, PartReader, PartTooLong};
use std::cmp::min;
use std::marker::Model;
use std::rc::Rc;
use vm_outside::{Disk, Failed};

/// How many bytes one write puts at most: as many as the longest block has.
const PIECE: usize = 163_880;

/// How many bytes a part in a file has at most.
const MAX_FILE: usize = 1 << 61;

/// What a step of writing did.
#[derive(Clone, Copy, Debug, PartialEq, Eq)]
pub enum Writing {
    /// It wrote some bytes.
    More,
    /// All bytes were written before, and it synced the file.
    Synced,
}

/// A part on its way into a file, and how far it came. Contracts see the file's number, the part,
/// and how many of its bytes were written.
///
/// Make steps until one answers `Synced`. Each step is one call on the disk, so other work can be
/// done between two.
#[derive(Debug, Drop)]
pub struct PartWriter {
    file: u64,
    part: Rc<MemPart>,
    /// How many bytes were written.
    done: usize,
}

impl Model for PartWriter {
    ghost use Rattle.std.specs.Prelude.{◌≤◌, ◌^◌, length};
    ghost use Rattle.vm_part.specs.Files.{Begun};

    ghost Value = { Begun };

    ghost view = { λ writer. record { file = writer.file; part = writer.part.value; done = writer.done } };

    ghost invariant = { λ writer. (writer.done ≤ length writer.part.value.bytes)
        × (length writer.part.value.bytes ≤ 2 ^ 61) };
}

impl PartWriter {
    /// Begins to write a part into a file, of which nothing is written yet. It takes no memory. A
    /// part of more than 2^61 bytes is refused.
    pub fn begin_image(file: u64, part: Rc<MemPart>) -> Result<PartWriter, PartTooLong>
        ensures begun { IfOk result
            (λ begun. begun ≡ record { file = file; part = part.value; done = 0 }) }
        ensures fits { OnOk result (length part.value.bytes ≤ 2 ^ 61) }
        ensures too_long { OnErr result (2 ^ 61 < length part.value.bytes) }
    {
        if part.image().len() > MAX_FILE {
            return Err(PartTooLong);
        }
        Ok(PartWriter {
            file,
            part,
            done: 0,
        })
    }

    /// Writes the next 163,880 bytes of the part, or all that are left where these are fewer. Where
    /// none are left it syncs the file. The file is one into which this writer alone writes, empty
    /// at the beginning.
    ///
    /// After an error the writer is unchanged, and the same call may be made again.
    pub fn finish_step<D: Disk>(&mut self, disk: &mut D) -> Result<Writing, Failed>
        requires written { IsTrue (D.state disk.old).honest
            → HasWritten self.old (D.state disk.old).reads }
        // What `Ok` holds, and what an error leaves.
        ensures step { IfOk result (λ writing. IsStep self.old self.new writing) }
        ensures durable { IsTrue (D.state disk.old).honest
            → IfOk result (λ writing. IsDurable self.old (D.state disk.new).may_leave writing) }
        ensures unchanged { OnErr result (self.new ≡ self.old) }
        ensures written { IsTrue (D.state disk.old).honest
            → HasWritten self.new (D.state disk.new).reads }
        // What stays.
        ensures changes { OnlyChanges self.old.file (Torn self.old.done (next_len self.old))
            (D.state disk.old) (D.state disk.new) }
        // At each moment.
        ensures time { Passes (D.state disk.old) (D.state disk.new) }
        // When the error comes.
        ensures cause { OnErr result
            (Rose (D.state disk.old).write_faults (D.state disk.new).write_faults) }
    {
        let bytes = self.part.image();
        let len = min(PIECE, bytes.len() - self.done);
        if len == 0 {
            disk.sync(self.file)?;
            return Ok(Writing::Synced);
        }
        let piece = &bytes[self.done..self.done + len];
        disk.write(self.file, self.done as u64, piece)?;
        self.done += len;
        Ok(Writing::More)
    }

    /// The length of the part's file, in bytes.
    pub fn len(&self) -> u64
        ensures { result ≡ length self.now.part.bytes }
    {
        self.part.image().len() as u64
    }

    /// The part in its file, once all was written and synced.
    pub fn into_reader(self) -> PartReader
        requires { next_len self ≡ 0 }
        ensures { result ≡ record { file = self.file; part = self.part } }
    {
        let PartWriter { file, part, .. } = self;
        PartReader::new(file, part)
    }
}
