//! Files, and what a crash may leave of them.
ghost use Rattle.std.specs.Prelude.{◌≡◌, ℕ, ◌+◌, ◌-◌, ◌^◌, ◌≤◌, ◌++◌, ◌⊎◌, List, length, take, drop, min, IfOk, OnOk, OnErr, IsTrue, MatchResult};
ghost use Rattle.vm_outside.specs.Disk.{Image, Holds, Torn, Dropped, Emptied, Changes, DiskState, Each, OnlyChanges, OnlyReads, Passes, Quiet};
ghost use Rattle.vm_outside.specs.Outside.{Rose};

use crate::Failed;

/// Files named by numbers, each a run of bytes. A file that was never written is empty.
///
/// A disk that is `honest` tells what reads give and what a crash may leave, and keeps what it
/// tells: it is what an operating system's files with `fsync` are, at their worst. Until a file is
/// synced, a crash may leave any bytes where it was written since, and may or may not have made it
/// longer, whatever it leaves of other files. The clauses on causes hold for every disk.
///
/// `docs/crash-model.md` says what this asks of a real disk, and what it doesn't.
pub trait Disk {
    /// What the disk tells now: whether it is honest, what reads give, what a crash may leave, and
    /// how many calls were made and failed.
    ghost state: { Self → DiskState };

    /// The length of the file, in bytes.
    fn len(&mut self, file: u64) -> Result<u64, Failed>
        // What `Ok` holds.
        ensures value { IsTrue (state self.old).honest
            → IfOk result (λ n. n ≡ length ((state self.old).reads file)) }
        // What stays.
        ensures reads { OnlyReads 0 (state self.old) (state self.new) }
        // At each moment.
        ensures time { Passes (state self.old) (state self.new) }
        // When the error comes.
        ensures cause { OnErr result
            (Rose (state self.old).read_faults (state self.new).read_faults) };

    /// Puts the bytes of the file from `at` on at the front of `into` and answers how many: as many
    /// as fit and stand there up to the file's end.
    fn read(&mut self, file: u64, at: u64, into: &mut [u8]) -> Result<usize, Failed>
        // What `Ok` holds.
        ensures within { IfOk result (λ n. n ≤ length into.old) }
        ensures count { IsTrue (state self.old).honest → IfOk result (λ n.
            n ≡ min (length into.old) (length ((state self.old).reads file) - at)) }
        ensures bytes { IsTrue (state self.old).honest → IfOk result (λ n.
            into.new ≡ take n (drop at ((state self.old).reads file)) ++ drop n into.old) }
        ensures bytes_read { IsTrue (state self.old).honest → MatchResult result
            (λ n. (state self.new).bytes_read ≡ (state self.old).bytes_read + n)
            (λ _. (state self.new).bytes_read ≡ (state self.old).bytes_read) }
        // What stays.
        ensures reads { OnlyReads (length into.old) (state self.old) (state self.new) }
        // At each moment.
        ensures time { Passes (state self.old) (state self.new) }
        // When the error comes.
        ensures cause { OnErr result
            (Rose (state self.old).read_faults (state self.new).read_faults) };

    /// Puts all of `bytes` into the file from `at` on, over what stands there and past the end.
    /// Until a `sync` of the file a crash may leave any bytes in that range, also where this call
    /// fails.
    fn write(&mut self, file: u64, at: u64, bytes: &[u8]) -> Result<(), Failed>
        requires fits { at + length bytes.now ≤ 2 ^ 62 }
        requires no_gap { IsTrue (state self.old).honest
            → at ≤ length ((state self.old).reads file) }
        // What `Ok` holds, and what an error leaves.
        ensures written { IsTrue (state self.old).honest → OnOk result
            (Changes file (Holds at bytes.now) (state self.old).reads (state self.new).reads) }
        ensures torn { IsTrue (state self.old).honest → OnErr result
            (Changes file (Torn at (length bytes.now))
            (state self.old).reads (state self.new).reads) }
        // What stays.
        ensures changes { OnlyChanges file (Torn at (length bytes.now))
            (state self.old) (state self.new) }
        // At each moment.
        ensures time { Passes (state self.old) (state self.new) }
        // When the error comes.
        ensures cause { OnErr result
            (Rose (state self.old).write_faults (state self.new).write_faults) };

    /// Waits until a crash leaves the file as reads give it.
    fn sync(&mut self, file: u64) -> Result<(), Failed>
        // What `Ok` holds.
        ensures durable { IsTrue (state self.old).honest → OnOk result ((left : List ℕ)
            → (state self.new).may_leave file left → left ≡ (state self.old).reads file) }
        // What stays.
        ensures quiet { Quiet (state self.old) (state self.new) }
        ensures bytes_read { IsTrue (state self.old).honest
            → (state self.new).bytes_read ≡ (state self.old).bytes_read }
        ensures read_faults { (state self.new).read_faults ≡ (state self.old).read_faults }
        // At each moment.
        ensures time { Passes (state self.old) (state self.new) }
        // When the error comes.
        ensures cause { OnErr result
            (Rose (state self.old).write_faults (state self.new).write_faults) };

    /// Makes the file empty at once. Until its next `sync` a crash may leave it with any bytes, no
    /// longer than it might have left it before.
    fn drop_file(&mut self, file: u64) -> Result<(), Failed>
        // What `Ok` holds, and what an error leaves.
        ensures dropped { IsTrue (state self.old).honest → OnOk result
            (Changes file Emptied (state self.old).reads (state self.new).reads) }
        ensures torn { IsTrue (state self.old).honest → OnErr result
            (((state self.new).reads ≡ (state self.old).reads)
            ⊎ Changes file Emptied (state self.old).reads (state self.new).reads) }
        // What stays.
        ensures changes { OnlyChanges file Dropped (state self.old) (state self.new) }
        // At each moment.
        ensures time { Passes (state self.old) (state self.new) }
        // When the error comes.
        ensures cause { OnErr result
            (Rose (state self.old).write_faults (state self.new).write_faults) };

    /// What reads give of a file is what a crash may leave of it.
    ghost reads_as_left: { (disk : Self) → IsTrue (state disk).honest → (file : ℕ)
        → (state disk).may_leave file ((state disk).reads file) };

    /// A crash at this moment is one since any earlier moment.
    ghost counts_now: { (disk : Self) (since : ℕ) (image : Image) → since ≤ (state disk).moment
        → Each (state disk).may_leave image → (state disk).left_since since image };

    /// Since this moment there is no other.
    ghost only_now: { (disk : Self) (image : Image)
        → (state disk).left_since (state disk).moment image → Each (state disk).may_leave image };
}
