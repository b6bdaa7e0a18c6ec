//! A part that stands in a file.

ghost use Rattle.std.specs.Prelude.{◌≡◌, ◌<◌, length, map, slice_get, Some, IfOk};
ghost use Rattle.vm_part.specs.Part.{samples_of};
ghost use Rattle.vm_part.specs.Said.{Says};

use crate::{Entry, MemPart};
use std::alloc::{AllocError, Global};
use std::marker::Model;
use std::rc::Rc;
use vm_base::{List, Stamped};
use vm_index::Index;

/// A part that was opened from a file, or written into one. Contracts see the file's number and the
/// part.
#[derive(Debug, Drop)]
pub struct PartReader {
    file: u64,
    part: Rc<MemPart>,
}

impl Model for PartReader {
    ghost use Rattle.vm_part.specs.Files.{InFile};

    ghost Value = { InFile };

    ghost view = { λ reader. record { file = reader.file; part = reader.part.value } };
}

impl PartReader {
    pub(crate) fn new(file: u64, part: Rc<MemPart>) -> PartReader
        ensures { result ≡ record { file = file; part = part.value } }
    {
        PartReader { file, part }
    }

    /// The number of its file.
    pub fn file(&self) -> u64
        ensures { result ≡ self.now.file }
    {
        self.file
    }

    /// The label index of its series.
    pub fn index(&self) -> &Index
        ensures { result.now ≡ self.now.part.sets }
    {
        self.part.index()
    }

    /// How many samples it holds.
    pub fn rows(&self) -> u64
        ensures { result ≡ self.now.part.rows }
    {
        self.part.rows()
    }

    /// What is said of a series, by its ordinal.
    pub fn entry(&self, ordinal: u64) -> Entry
        requires { ordinal < length self.now.part.sets }
        ensures { slice_get self.now.part.entries ordinal ≡ Some result }
    {
        self.part.entry(ordinal)
    }

    /// The samples of a series, by its ordinal, in order.
    pub fn samples(&self, alloc: Global, ordinal: u64) -> Result<List<Stamped>, AllocError>
        requires { ordinal < length self.now.part.sets }
        ensures { IfOk result
            (λ samples.
            Says self.now.part (λ all. slice_get (map samples_of all) ordinal ≡ Some samples)) }
    {
        self.part.samples(alloc, ordinal)
    }
}
