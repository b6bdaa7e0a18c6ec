//! What a disk in memory writes down of its calls.
ghost use Rattle.std.specs.Prelude.{◌≡◌};
ghost use Rattle.vm_outside.specs.MemDisk.{file_of};

use vm_base::List;

/// A call of a disk in memory, with what came of it.
#[derive(Debug, Drop)]
pub enum DiskCall {
    /// The length of a file was asked for.
    Len {
        file: u64,
    },
    /// A file was read from a place on, and so many bytes were given: none where the call failed.
    Read {
        file: u64,
        at: u64,
        given: u64,
    },
    /// These bytes were to be put at a place of a file.
    Write {
        file: u64,
        at: u64,
        bytes: List<u8>,
        done: bool,
    },
    /// A file was to be synced.
    Sync {
        file: u64,
        done: bool,
    },
    /// A file was to be made empty.
    DropFile {
        file: u64,
        done: bool,
    },
}

impl DiskCall {
    /// The file that was meant.
    pub fn file(&self) -> u64
        ensures { result ≡ file_of self.now }
    {
        match self {
            DiskCall::Len { file } => *file,
            DiskCall::Read {
                file,
                at: _,
                given: _,
            } => *file,
            DiskCall::Write {
                file,
                at: _,
                bytes: _,
                done: _,
            } => *file,
            DiskCall::Sync { file, done: _ } => *file,
            DiskCall::DropFile { file, done: _ } => *file,
        }
    }
}
