//! The files of a disk in memory, by their numbers.
ghost use Rattle.std.specs.Prelude.{◌≡◌, ◌≤◌, ℕ, [], ◌+◌, ◌^◌, length, nat_eq, if◌then◌else◌, OnOk, OnErr};
ghost use Rattle.vm_outside.specs.Files.{content};
ghost use Rattle.vm_outside.specs.MemDisk.{written};

use std::alloc::{AllocError, Global};
use std::collections::BTreeMap;

/// Files in memory. One that isn't there is empty.
#[derive(Drop)]
pub(crate) struct Files {
    by_number: BTreeMap<u64, Vec<u8>>,
}

impl Files {
    /// No files.
    pub(crate) fn new(alloc: Global) -> Files
        ensures { (f : ℕ) → content result f ≡ [] }
    {
        Files {
            by_number: BTreeMap::new(alloc),
        }
    }

    /// The bytes of a file.
    pub(crate) fn bytes(&self, file: u64) -> &[u8]
        ensures { result.now ≡ content self.now file }
    {
        match self.by_number.get(&file) {
            Some(bytes) => bytes.as_slice(),
            None => &[],
        }
    }

    /// Gives a file these bytes. Without memory all stays as it was.
    pub(crate) fn set(&mut self, file: u64, bytes: Vec<u8>) -> Result<(), AllocError>
        ensures set { OnOk result ((f : ℕ) → content self.new f
            ≡ (if nat_eq file f then bytes.items else content self.old f)) }
        ensures kept { OnErr result ((f : ℕ) → content self.new f ≡ content self.old f) }
    {
        match self.by_number.insert(file, bytes) {
            Ok(_) => Ok(()),
            Err(_) => Err(AllocError),
        }
    }

    /// Puts bytes into a file at a place within it. Without memory all stays as it was.
    pub(crate) fn write(
        &mut self,
        alloc: Global,
        file: u64,
        at: usize,
        bytes: &[u8],
    ) -> Result<(), AllocError>
        requires { at ≤ length (content self.old file) }
        ensures written { OnOk result ((f : ℕ) → content self.new f
            ≡ (if nat_eq file f then written at bytes.now (content self.old f)
            else content self.old f)) }
        ensures kept { OnErr result ((f : ℕ) → content self.new f ≡ content self.old f) }
    {
        match self.by_number.get_mut(&file) {
            Some(held) => write_at(held, at, bytes),
            None => self.set(file, Vec::from_slice(alloc, bytes)?),
        }
    }
}

/// Puts bytes over those at a place, and past the end. Without memory all stays as it was.
pub(crate) fn write_at(held: &mut Vec<u8>, at: usize, bytes: &[u8]) -> Result<(), AllocError>
    requires { at ≤ length held.old.items }
    ensures written { OnOk result (held.new.items ≡ written at bytes.now held.old.items) }
    ensures kept { OnErr result (held.new.items ≡ held.old.items) }
{
    let within = bytes.len().min(held.len() - at);
    let (over, more) = bytes.split_at(within);
    held.extend_from_slice(more)?;
    held[at..at + within].copy_from_slice(over);
    Ok(())
}
