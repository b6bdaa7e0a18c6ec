//! A disk that isn't there.
ghost use Rattle.std.specs.Prelude.{◌≡◌, IsErr};
ghost use Rattle.vm_outside.specs.Outside.{raised};
ghost use Rattle.vm_outside.specs.NoDisk.{never, state_of};

use crate::{Disk, Failed};

/// A disk that isn't there: each call fails, and is counted. A program that keeps no files hands
/// it in.
#[derive(Debug, Drop)]
pub struct NoDisk {
    /// How many calls of `len` and `read` were made, up to 2^64 - 1.
    pub read_faults: u64,
    /// How many calls of `write`, `sync` and `drop_file` were made, up to 2^64 - 1.
    pub write_faults: u64,
}

impl NoDisk {
    /// A disk that wasn't called yet.
    pub fn new() -> NoDisk
        ensures read_faults { (⟦<NoDisk as Disk>⟧.state result).read_faults ≡ 0 }
        ensures write_faults { (⟦<NoDisk as Disk>⟧.state result).write_faults ≡ 0 }
    {
        NoDisk {
            read_faults: 0,
            write_faults: 0,
        }
    }
}

impl Disk for NoDisk {
    ghost state = { state_of };

    ghost reads_as_left = { λ disk honest file. never honest };

    ghost counts_now = { λ disk since image within each. each 0 };

    ghost only_now = { λ disk image left file. left };

    fn len(&mut self, _file: u64) -> Result<u64, Failed>
        ensures fails { IsErr result }
        ensures counted { self.new
            ≡ record self.old { read_faults = raised self.old.read_faults } }
    {
        self.read_faults = self.read_faults.saturating_add(1);
        Err(Failed)
    }

    fn read(&mut self, _file: u64, _at: u64, _into: &mut [u8]) -> Result<usize, Failed>
        ensures fails { IsErr result }
        ensures counted { self.new
            ≡ record self.old { read_faults = raised self.old.read_faults } }
    {
        self.read_faults = self.read_faults.saturating_add(1);
        Err(Failed)
    }

    fn write(&mut self, _file: u64, _at: u64, _bytes: &[u8]) -> Result<(), Failed>
        ensures fails { IsErr result }
        ensures counted { self.new
            ≡ record self.old { write_faults = raised self.old.write_faults } }
    {
        self.write_faults = self.write_faults.saturating_add(1);
        Err(Failed)
    }

    fn sync(&mut self, _file: u64) -> Result<(), Failed>
        ensures fails { IsErr result }
        ensures counted { self.new
            ≡ record self.old { write_faults = raised self.old.write_faults } }
    {
        self.write_faults = self.write_faults.saturating_add(1);
        Err(Failed)
    }

    fn drop_file(&mut self, _file: u64) -> Result<(), Failed>
        ensures fails { IsErr result }
        ensures counted { self.new
            ≡ record self.old { write_faults = raised self.old.write_faults } }
    {
        self.write_faults = self.write_faults.saturating_add(1);
        Err(Failed)
    }
}
