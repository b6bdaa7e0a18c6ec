//! A disk in memory, which tells what it holds and what a crash may leave.
ghost use Rattle.std.specs.Prelude.{◌≡◌, ◌≤◌, ◌+◌, ℕ, List, [], ◌∷◌, ◌++◌, true, false, length, reverse, ◌^◌, ◌⊎◌, nat_eq, if◌then◌else◌, IfOk, OnOk, OnErr, MatchResult, min, ◌-◌, take, drop};
ghost use Rattle.vm_outside.specs.Files.{content};
ghost use Rattle.vm_outside.specs.Outside.{raised};
ghost use Rattle.std.specs.List.{list_all};
ghost use Rattle.vm_outside.specs.MemDisk.{replayed, unsynced, written, fits};
ghost use Rattle.vm_outside.specs.declared.disk_call.DiskCall.TheVariants.{Len, Read, Write, Sync, DropFile};
ghost use Rattle.vm_outside.specs.MemDiskLaws.{reads_as_left, counted_now, only_last_now};

use crate::failing_calls::FailingCalls;
use crate::mem_files::Files;
use crate::{Disk, DiskCall, Failed, Unsynced};
use std::alloc::{AllocError, Global};
use vm_base::List;

/// A disk in memory. It is honest, and a crash may leave of it all that a crash may leave of the
/// files of an operating system at their worst: until a file is synced, any bytes where it was
/// written since, and any length from the synced one to the greatest since.
///
/// It writes down each call. A test can make it fail at chosen calls. A call whose memory can't
/// grow answers `Failed` too and counts it, whatever was chosen, and changes nothing else.
#[derive(Drop)]
pub struct MemDisk {
    alloc: Global,
    /// What the files held before the first call.
    first: Files,
    files: Files,
    calls: Vec<DiskCall>,
    failing: FailingCalls,
    read_faults: u64,
    write_faults: u64,
    ghost fit: { list_all fits calls.items ≡ true },
    ghost replays: { (file : ℕ)
        → content files file ≡ replayed (content first) (reverse calls.items) file },
}

impl MemDisk {
    ghost use Rattle.vm_outside.specs.MemDiskState.{calls_of, first_of};

    /// An empty disk that wasn't called yet, whose calls with these numbers, counted from 0, fail.
    pub fn new(alloc: Global, failing: Vec<u64>) -> MemDisk
        ensures reads { (file : ℕ) → (⟦<MemDisk as Disk>⟧.state result).reads file ≡ [] }
        ensures left { (file : ℕ) (left : List ℕ)
            → (⟦<MemDisk as Disk>⟧.state result).may_leave file left → left ≡ [] }
        ensures moment { (⟦<MemDisk as Disk>⟧.state result).moment ≡ 0 }
        ensures faults { ((⟦<MemDisk as Disk>⟧.state result).read_faults ≡ 0)
            × ((⟦<MemDisk as Disk>⟧.state result).write_faults ≡ 0) }
        ensures honest { (⟦<MemDisk as Disk>⟧.state result).honest ≡ true }
    {
        MemDisk {
            alloc,
            first: Files::new(alloc),
            files: Files::new(alloc),
            calls: Vec::new(alloc),
            failing: FailingCalls::new(failing),
            read_faults: 0,
            write_faults: 0,
        }
    }

    /// An empty disk that fails only where memory runs out.
    pub fn steady(alloc: Global) -> MemDisk
        ensures reads { (file : ℕ) → (⟦<MemDisk as Disk>⟧.state result).reads file ≡ [] }
        ensures left { (file : ℕ) (left : List ℕ)
            → (⟦<MemDisk as Disk>⟧.state result).may_leave file left → left ≡ [] }
        ensures moment { (⟦<MemDisk as Disk>⟧.state result).moment ≡ 0 }
        ensures faults { ((⟦<MemDisk as Disk>⟧.state result).read_faults ≡ 0)
            × ((⟦<MemDisk as Disk>⟧.state result).write_faults ≡ 0) }
        ensures honest { (⟦<MemDisk as Disk>⟧.state result).honest ≡ true }
    {
        MemDisk::new(alloc, Vec::new(alloc))
    }

    /// The same disk, not called yet, with these bytes in a file from the first.
    pub fn holding(self, file: u64, bytes: &[u8]) -> Result<MemDisk, AllocError>
        requires first { (⟦<MemDisk as Disk>⟧.state self).moment ≡ 0 }
        ensures reads { IfOk result (λ disk. (f : ℕ) → (⟦<MemDisk as Disk>⟧.state disk).reads f
            ≡ (if nat_eq file f then bytes.now else (⟦<MemDisk as Disk>⟧.state self).reads f)) }
        ensures left { IfOk result
            (λ disk. (f : ℕ) (left : List ℕ) → (⟦<MemDisk as Disk>⟧.state disk).may_leave f left
            → left ≡ (⟦<MemDisk as Disk>⟧.state disk).reads f) }
        ensures moment { IfOk result (λ disk. (⟦<MemDisk as Disk>⟧.state disk).moment ≡ 0) }
    {
        let MemDisk {
            alloc,
            first,
            files,
            calls,
            failing,
            read_faults,
            write_faults,
        } = self;
        let mut first = first;
        let mut files = files;
        first.set(file, Vec::from_slice(alloc, bytes)?)?;
        files.set(file, Vec::from_slice(alloc, bytes)?)?;
        Ok(MemDisk {
            alloc,
            first,
            files,
            calls,
            failing,
            read_faults,
            write_faults,
        })
    }

    /// What a crash after the first so many calls may leave of a file, or within the last of these.
    pub fn unsynced(&self, calls: usize, file: u64) -> Result<Unsynced, AllocError>
        requires { calls ≤ (⟦<MemDisk as Disk>⟧.state self.now).moment }
        ensures { IfOk result
            (λ left. left
            ≡ unsynced (first_of self.now) (reverse (take calls (calls_of self.now))) file) }
    {
        let mut held = Vec::from_slice(self.alloc, self.first.bytes(file))?;
        let mut left = Unsynced::all_synced(self.alloc, &held)?;
        for call in &self.calls[..calls] {
            left = left.after(self.alloc, file, call, &mut held)?;
        }
        Ok(left)
    }

    /// The calls so far, the first one first.
    pub fn calls(&self) -> &[DiskCall]
        ensures calls { result.now ≡ calls_of self.now }
        ensures moment { length result.now ≡ (⟦<MemDisk as Disk>⟧.state self.now).moment }
    {
        &self.calls
    }

    /// The bytes of a file, as a read gives them.
    pub fn bytes(&self, file: u64) -> &[u8]
        ensures { result.now ≡ (⟦<MemDisk as Disk>⟧.state self.now).reads file }
    {
        self.files.bytes(file)
    }
}

impl MemDisk {
    ghost use Rattle.vm_outside.specs.MemDiskState.{Notes, MayNote, calls_of, first_of, files_of};
    ghost use Rattle.vm_outside.specs.inner.DiskCalls.{IsStill, Keeps};

    /// Writes a call down that changes no file. Without memory it doesn't.
    fn note(&mut self, call: DiskCall) -> Result<(), AllocError>
        requires still { IsStill call }
        requires fits { fits call ≡ true }
        ensures noted { OnOk result (Notes call self.old self.new) }
        ensures not_noted { OnErr result (calls_of self.new ≡ calls_of self.old) }
        ensures keeps { Keeps self.old self.new }
    {
        self.calls.push(call)?;
        Ok(())
    }

    /// Counts a failed call of `len` or `read`.
    fn read_failed(&mut self) -> Failed
        ensures { self.new ≡ record self.old { read_faults = raised self.old.read_faults } }
    {
        self.read_faults = self.read_faults.saturating_add(1);
        Failed
    }

    /// Counts a failed call of `write`, `sync` or `drop_file`.
    fn write_failed(&mut self) -> Failed
        ensures { self.new ≡ record self.old { write_faults = raised self.old.write_faults } }
    {
        self.write_faults = self.write_faults.saturating_add(1);
        Failed
    }

    /// A call of `len` or `read` that was to fail.
    fn fail_read(&mut self, call: DiskCall) -> Failed
        requires still { IsStill call }
        requires fits { fits call ≡ true }
        ensures may_note { MayNote call self.old self.new }
        ensures kept { (first_of self.new ≡ first_of self.old)
            × (files_of self.new ≡ files_of self.old) }
        ensures counted { self.new.read_faults ≡ raised self.old.read_faults }
        ensures write_faults { self.new.write_faults ≡ self.old.write_faults }
        ensures failing { self.new.failing ≡ self.old.failing }
    {
        match self.note(call) {
            Ok(()) => self.read_failed(),
            Err(AllocError) => self.read_failed(),
        }
    }

    /// A call of `write`, `sync` or `drop_file` that was to fail.
    fn fail_write(&mut self, call: DiskCall) -> Failed
        requires still { IsStill call }
        requires fits { fits call ≡ true }
        ensures may_note { MayNote call self.old self.new }
        ensures kept { (first_of self.new ≡ first_of self.old)
            × (files_of self.new ≡ files_of self.old) }
        ensures counted { self.new.write_faults ≡ raised self.old.write_faults }
        ensures read_faults { self.new.read_faults ≡ self.old.read_faults }
        ensures failing { self.new.failing ≡ self.old.failing }
    {
        match self.note(call) {
            Ok(()) => self.write_failed(),
            Err(AllocError) => self.write_failed(),
        }
    }

    /// A call of `write` that was to fail.
    fn fail_whole_write(&mut self, file: u64, at: u64, bytes: &[u8]) -> Failed
        requires fits { at + length bytes.now ≤ 2 ^ 62 }
        ensures may_note { MayNote (Write file at bytes.now false) self.old self.new }
        ensures kept { (first_of self.new ≡ first_of self.old)
            × (files_of self.new ≡ files_of self.old) }
        ensures counted { self.new.write_faults ≡ raised self.old.write_faults }
        ensures read_faults { self.new.read_faults ≡ self.old.read_faults }
        ensures failing { self.new.failing ≡ self.old.failing }
    {
        match Vec::from_slice(self.alloc, bytes) {
            Ok(copy) => self.fail_write(DiskCall::Write {
                file,
                at,
                bytes: List::from_vec(copy),
                done: false,
            }),
            Err(AllocError) => self.write_failed(),
        }
    }
}

/// Puts bytes into a file, and writes the call down. Without memory neither is done.
fn write_down(
    alloc: Global,
    files: &mut Files,
    calls: &mut Vec<DiskCall>,
    file: u64,
    at: u64,
    bytes: &[u8],
) -> Result<(), AllocError>
    requires within { at ≤ length (content files.old file) }
    requires fits { at + length bytes.now ≤ 2 ^ 62 }
    ensures noted { OnOk result
        (calls.new.items ≡ calls.old.items ++ Write file at bytes.now true ∷ []) }
    ensures written { OnOk result ((f : ℕ) → content files.new f
        ≡ (if nat_eq file f then written at bytes.now (content files.old f)
        else content files.old f)) }
    ensures not_noted { OnErr result (calls.new.items ≡ calls.old.items) }
    ensures kept { OnErr result ((f : ℕ) → content files.new f ≡ content files.old f) }
{
    let copy = List::from_vec(Vec::from_slice(alloc, bytes)?);
    calls.push(DiskCall::Write {
        file,
        at,
        bytes: copy,
        done: true,
    })?;
    match files.write(alloc, file, at as usize, bytes) {
        Ok(()) => Ok(()),
        Err(AllocError) => {
            calls.pop();
            Err(AllocError)
        }
    }
}

/// Makes a file empty, and writes the call down. Without memory neither is done.
fn empty_down(
    alloc: Global,
    files: &mut Files,
    calls: &mut Vec<DiskCall>,
    file: u64,
) -> Result<(), AllocError>
    ensures noted { OnOk result (calls.new.items ≡ calls.old.items ++ DropFile file true ∷ []) }
    ensures emptied { OnOk result ((f : ℕ) → content files.new f
        ≡ (if nat_eq file f then [] else content files.old f)) }
    ensures not_noted { OnErr result (calls.new.items ≡ calls.old.items) }
    ensures kept { OnErr result ((f : ℕ) → content files.new f ≡ content files.old f) }
{
    calls.push(DiskCall::DropFile { file, done: true })?;
    match files.set(file, Vec::new(alloc)) {
        Ok(()) => Ok(()),
        Err(AllocError) => {
            calls.pop();
            Err(AllocError)
        }
    }
}

/// Puts the bytes from a place on at the front of `into`, and answers how many.
fn give(bytes: &[u8], at: u64, into: &mut [u8]) -> usize
    ensures count { result ≡ min (length into.old) (length bytes.now - at) }
    ensures bytes { into.new ≡ take result (drop at bytes.now) ++ drop result into.old }
{
    let Some(rest) = bytes.get(at as usize..) else {
        return 0;
    };
    let n = rest.len().min(into.len());
    into[..n].copy_from_slice(&rest[..n]);
    n
}

impl Disk for MemDisk {
    ghost use Rattle.std.specs.Prelude.{is_ok};
    ghost use Rattle.vm_outside.specs.MemDiskState.{IsMade, files_of, given_by, state_of};
    ghost use Rattle.vm_outside.specs.Outside.{CountsEach};
    ghost use Rattle.vm_outside.specs.Disk.{Changes, Dropped, Emptied, Holds, OnlyChanges, OnlyReads, Passes, Quiet, Torn};

    ghost state = { state_of };

    ghost reads_as_left = { λ disk honest file.
        reads_as_left (content disk.first) disk.calls.items file (content disk.files file)
        (disk.replays file) };

    ghost counts_now = { λ disk since image within each.
        counted_now (content disk.first) disk.calls.items since image within each };

    ghost only_now = { λ disk image left. only_last_now (content disk.first) disk.calls.items image left };

    fn len(&mut self, file: u64) -> Result<u64, Failed>
        ensures value { IfOk result (λ n. n ≡ length (files_of self.old file)) }
        ensures reads { OnlyReads 0 (state_of self.old) (state_of self.new) }
        ensures time { Passes (state_of self.old) (state_of self.new) }
        ensures made { IsMade (Len file) (Len file) (is_ok result) self.old self.new }
        ensures counted { CountsEach result self.old.read_faults self.new.read_faults }
    {
        if self.failing.begin() {
            return Err(self.fail_read(DiskCall::Len { file }));
        }
        match self.note(DiskCall::Len { file }) {
            Ok(()) => Ok(self.files.bytes(file).len() as u64),
            Err(AllocError) => Err(self.read_failed()),
        }
    }

    fn read(&mut self, file: u64, at: u64, into: &mut [u8]) -> Result<usize, Failed>
        ensures count { IfOk result
            (λ n. n ≡ min (length into.old) (length (files_of self.old file) - at)) }
        ensures bytes { IfOk result
            (λ n. into.new ≡ take n (drop at (files_of self.old file)) ++ drop n into.old) }
        ensures reads { OnlyReads (length into.old) (state_of self.old) (state_of self.new) }
        ensures bytes_read { MatchResult result
            (λ n. (state_of self.new).bytes_read ≡ (state_of self.old).bytes_read + n)
            (λ _. (state_of self.new).bytes_read ≡ (state_of self.old).bytes_read) }
        ensures time { Passes (state_of self.old) (state_of self.new) }
        ensures made { IsMade (Read file at (given_by result)) (Read file at 0) (is_ok result)
            self.old self.new }
        ensures counted { CountsEach result self.old.read_faults self.new.read_faults }
    {
        if self.failing.begin() {
            return Err(self.fail_read(DiskCall::Read { file, at, given: 0 }));
        }
        let n = give(self.files.bytes(file), at, into);
        match self.note(DiskCall::Read {
            file,
            at,
            given: n as u64,
        }) {
            Ok(()) => Ok(n),
            Err(AllocError) => Err(self.read_failed()),
        }
    }

    fn write(&mut self, file: u64, at: u64, bytes: &[u8]) -> Result<(), Failed>
        requires fits { at + length bytes.now ≤ 2 ^ 62 }
        requires no_gap { at ≤ length (files_of self.old file) }
        ensures written { OnOk result
            (Changes file (Holds at bytes.now) (files_of self.old) (files_of self.new)) }
        ensures torn { OnErr result
            (Changes file (Torn at (length bytes.now)) (files_of self.old) (files_of self.new)) }
        ensures kept { OnErr result ((f : ℕ) → files_of self.new f ≡ files_of self.old f) }
        ensures changes { OnlyChanges file (Torn at (length bytes.now)) (state_of self.old)
            (state_of self.new) }
        ensures time { Passes (state_of self.old) (state_of self.new) }
        ensures made { IsMade (Write file at bytes.now true) (Write file at bytes.now false)
            (is_ok result) self.old self.new }
        ensures counted { CountsEach result self.old.write_faults self.new.write_faults }
    {
        if self.failing.begin() {
            return Err(self.fail_whole_write(file, at, bytes));
        }
        match write_down(
            self.alloc,
            &mut self.files,
            &mut self.calls,
            file,
            at,
            bytes,
        ) {
            Ok(()) => Ok(()),
            Err(AllocError) => Err(self.write_failed()),
        }
    }

    fn sync(&mut self, file: u64) -> Result<(), Failed>
        ensures quiet { Quiet (state_of self.old) (state_of self.new) }
        ensures bytes_read { (state_of self.new).bytes_read ≡ (state_of self.old).bytes_read }
        ensures read_faults { self.new.read_faults ≡ self.old.read_faults }
        ensures durable { OnOk result
            ((left : List ℕ) → (state_of self.new).may_leave file left
            → left ≡ files_of self.old file) }
        ensures time { Passes (state_of self.old) (state_of self.new) }
        ensures made { IsMade (Sync file true) (Sync file false) (is_ok result) self.old self.new }
        ensures counted { CountsEach result self.old.write_faults self.new.write_faults }
    {
        if self.failing.begin() {
            return Err(self.fail_write(DiskCall::Sync { file, done: false }));
        }
        match self.note(DiskCall::Sync { file, done: true }) {
            Ok(()) => Ok(()),
            Err(AllocError) => Err(self.write_failed()),
        }
    }

    fn drop_file(&mut self, file: u64) -> Result<(), Failed>
        ensures dropped { OnOk result
            (Changes file Emptied (files_of self.old) (files_of self.new)) }
        ensures torn { OnErr result
            ((files_of self.new ≡ files_of self.old)
            ⊎ Changes file Emptied (files_of self.old) (files_of self.new)) }
        ensures kept { OnErr result (files_of self.new ≡ files_of self.old) }
        ensures changes { OnlyChanges file Dropped (state_of self.old) (state_of self.new) }
        ensures time { Passes (state_of self.old) (state_of self.new) }
        ensures made { IsMade (DropFile file true) (DropFile file false) (is_ok result) self.old
            self.new }
        ensures counted { CountsEach result self.old.write_faults self.new.write_faults }
    {
        if self.failing.begin() {
            return Err(self.fail_write(DiskCall::DropFile { file, done: false }));
        }
        match empty_down(self.alloc, &mut self.files, &mut self.calls, file) {
            Ok(()) => Ok(()),
            Err(AllocError) => Err(self.write_failed()),
        }
    }
}
