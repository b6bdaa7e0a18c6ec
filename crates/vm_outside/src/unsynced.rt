//! A file between two syncs.
ghost use Rattle.std.specs.Prelude.{◌≡◌, true, ◌<◌, ◌≤◌, ℕ, ◌↔◌, IsTrue, length, slice_get, false, nat_le, nat_lt, ◌&&◌, ◌+◌, ◌^◌, ◌∷◌, [], List, if◌then◌else◌, IfOk, OnOk, Some};
ghost use Rattle.vm_outside.specs.Disk.{Image};
ghost use Rattle.vm_outside.specs.MemDisk.{fits, replayed, unsynced, written};
ghost use Rattle.vm_outside.specs.Unsynced.{IsLeft, is_in, all_synced, after_write, after_drop};
ghost use Rattle.vm_outside.specs.declared.disk_call.DiskCall.{DiskCall as Call};

use crate::DiskCall;
use crate::mem_files::write_at;
use std::alloc::{AllocError, Global};
use vm_base::List;

/// A file between two syncs, as a crash may leave it: with any bytes where it was written since and
/// with the synced ones elsewhere, in any length from the synced one to its greatest since.
#[derive(Debug, Drop)]
pub struct Unsynced {
    /// The bytes of the last sync.
    pub synced: List<u8>,
    /// Where it was written since: each place with how many bytes.
    pub ranges: List<(u64, u64)>,
    /// Its greatest length since, in bytes.
    pub longest: u64,
}

impl Unsynced {
    /// Whether a crash may leave these bytes.
    pub fn may_leave(&self, bytes: &[u8]) -> bool
        ensures { IsTrue result ↔ IsLeft self.now bytes.now }
    {
        if bytes.len() < self.synced.len() || bytes.len() as u64 > self.longest {
            return false;
        }
        for at in 0..bytes.len() {
            if !self.may_hold(at, bytes[at]) {
                return false;
            }
        }
        true
    }

    /// A file whose bytes are synced.
    pub(crate) fn all_synced(alloc: Global, bytes: &[u8]) -> Result<Unsynced, AllocError>
        ensures { IfOk result (λ file. file ≡ all_synced bytes.now) }
    {
        Ok(Unsynced {
            synced: List::from_vec(Vec::from_slice(alloc, bytes)?),
            ranges: List::new(alloc),
            longest: bytes.len() as u64,
        })
    }

    /// The file one call later, which held these bytes before the call and holds the others after
    /// it.
    #[tactic(auto, using(crate::proofs::RecordLaws::other_unsynced, crate::proofs::RecordLaws::other_replayed))]
    pub(crate) fn after(
        self,
        alloc: Global,
        file: u64,
        call: &DiskCall,
        held: &mut Vec<u8>,
    ) -> Result<Unsynced, AllocError>
        requires fits { fits call.now ≡ true }
        ensures left { (first : Image) (past : List Call)
            → replayed first past file ≡ held.old.items
            → unsynced first past file ≡ self
            → IfOk result (λ left. unsynced first (call.now ∷ past) file ≡ left) }
        ensures held { (first : Image) (past : List Call)
            → replayed first past file ≡ held.old.items
            → OnOk result (replayed first (call.now ∷ past) file ≡ held.new.items) }
    {
        if call.file() != file {
            return Ok(self);
        }
        match call {
            DiskCall::Len { file: _ } => Ok(self),
            DiskCall::Read {
                file: _,
                at: _,
                given: _,
            } => Ok(self),
            DiskCall::Write {
                file: _,
                at,
                bytes,
                done,
            } => self.after_write(*at, bytes.as_slice(), *done, held),
            DiskCall::Sync { file: _, done } => self.after_sync(alloc, *done, held),
            DiskCall::DropFile { file: _, done } => self.after_drop(alloc, *done, held),
        }
    }

    /// The file after a write.
    fn after_write(
        self,
        at: u64,
        bytes: &[u8],
        done: bool,
        held: &mut Vec<u8>,
    ) -> Result<Unsynced, AllocError>
        requires fits { at + length bytes.now ≤ 2 ^ 62 }
        ensures left { IfOk result (λ left. left ≡ after_write at (length bytes.now) self) }
        ensures held { OnOk result
            (held.new.items
            ≡ (if done then written at bytes.now held.old.items else held.old.items)) }
    {
        if done {
            put(held, at, bytes)?;
        }
        if at > self.longest {
            return Ok(self);
        }
        let Unsynced {
            synced,
            ranges,
            longest,
        } = self;
        let mut ranges = ranges.into_vec();
        ranges.insert(0, (at, bytes.len() as u64))?;
        Ok(Unsynced {
            synced,
            ranges: List::from_vec(ranges),
            longest: longest.max(at + bytes.len() as u64),
        })
    }

    /// The file after a sync.
    fn after_sync(self, alloc: Global, done: bool, held: &[u8]) -> Result<Unsynced, AllocError>
        ensures { IfOk result (λ left. left ≡ (if done then all_synced held.now else self)) }
    {
        if done {
            Unsynced::all_synced(alloc, held)
        } else {
            Ok(self)
        }
    }

    /// The file after it was dropped.
    fn after_drop(
        self,
        alloc: Global,
        done: bool,
        held: &mut Vec<u8>,
    ) -> Result<Unsynced, AllocError>
        ensures left { IfOk result (λ left. left ≡ after_drop self) }
        ensures held { OnOk result (held.new.items ≡ (if done then [] else held.old.items)) }
    {
        if done {
            held.clear();
        }
        let mut ranges = Vec::new(alloc);
        ranges.push((0, self.longest))?;
        Ok(Unsynced {
            synced: List::new(alloc),
            ranges: List::from_vec(ranges),
            longest: self.longest,
        })
    }

    /// Whether a crash may leave this byte at this place.
    fn may_hold(&self, at: usize, byte: u8) -> bool
        ensures { IsTrue result
            ↔ (is_in self.now.ranges at ≡ false → slice_get self.now.synced at ≡ Some byte) }
    {
        is_written(self.ranges.as_slice(), at as u64) || self.synced.get(at) == Some(&byte)
    }
}

/// Puts bytes at a place, unless that lies past the end.
fn put(held: &mut Vec<u8>, at: u64, bytes: &[u8]) -> Result<(), AllocError>
    ensures { OnOk result (held.new.items ≡ written at bytes.now held.old.items) }
{
    if at <= held.len() as u64 {
        write_at(held, at as usize, bytes)?;
    }
    Ok(())
}

/// Whether a place lies in one of the ranges.
fn is_written(ranges: &[(u64, u64)], place: u64) -> bool
    ensures { result ≡ is_in ranges.now place }
{
    for range in ranges {
        if lies_in(*range, place) {
            return true;
        }
    }
    false
}

/// Whether a place lies in a range.
fn lies_in(range: (u64, u64), place: u64) -> bool
    ensures { result ≡ (nat_le range.0 place && nat_lt place (range.0 + range.1)) }
{
    place >= range.0 && place - range.0 < range.1
}
