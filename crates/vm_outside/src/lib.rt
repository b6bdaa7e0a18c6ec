//! What the program meets of the world: bytes in and out, connections, files, time and patterns.
//!
//! Each is a trait. An object may tell its content to the contracts, as those in memory do, or tell
//! nothing, as an adapter of the operating system does. It counts its faults in either case, and a
//! call answers `Failed` only where its count rose, so that no code above can make a fault up.
//!
//! Read `Source` first, then `Sink` and `write_all`, then `Disk` with `write_and_sync` and
//! `read_all`, then the others. The words of the clauses stand in `specs/Outside.antt`,
//! `specs/Clock.antt` and `specs/Disk.antt`, and laws about them in `proofs/Streams.antt`. What a
//! crash may leave of a `MemDisk` is `specs/Unsynced.antt`, after the calls of
//! `specs/MemDisk.antt`. The repository's `docs/outside.md` says how to write an adapter, and
//! `docs/crash-model.md` what a disk is to keep.
//!
//! It stands on `vm_base` for `List` and `Text`, the groups of a pattern.
#![tactic(auto)]

mod clock;
mod disk;
mod disk_call;
mod failed;
mod failing_calls;
mod files;
mod link;
mod mem_clock;
mod mem_disk;
mod mem_files;
mod mem_sink;
mod mem_source;
mod no_disk;
mod no_link;
mod no_patterns;
mod patterns;
mod sink;
mod source;
mod unsynced;
mod writing;

pub use clock::Clock;
pub use disk::Disk;
pub use disk_call::DiskCall;
pub use failed::Failed;
pub use failing_calls::FailingCalls;
pub use files::{ReadFault, read_all, write_and_sync};
pub use link::Link;
pub use mem_clock::MemClock;
pub use mem_disk::MemDisk;
pub use mem_sink::MemSink;
pub use mem_source::MemSource;
pub use no_disk::NoDisk;
pub use no_link::NoLink;
pub use no_patterns::{NoPattern, NoPatterns};
pub use patterns::{Pattern, PatternFault, Patterns};
pub use sink::Sink;
pub use source::Source;
pub use unsynced::Unsynced;
pub use writing::write_all;
