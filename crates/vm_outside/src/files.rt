//! What layers above do with a file in one go.
ghost use Rattle.std.specs.Prelude.{◌≡◌, ℕ, ◌+◌, ◌^◌, ◌≤◌, List, length, IfOk, OnOk, OnErr, IsErrOf, IsTrue, ◌⊎◌};
ghost use Rattle.vm_outside.specs.Disk.{Holds, Torn, Changes, Each, Elapses, MayFollow, OnlyChanges, Quiet};
ghost use Rattle.vm_outside.specs.Outside.{Rose};
ghost use Rattle.vm_outside.specs.declared.files.ReadFault.TheVariants.{Memory as NoRoom, Failed as NotRead};

use crate::{Disk, Failed};
use std::alloc::{AllocError, Global};

/// Why a file could not be read whole.
#[derive(Clone, Copy, Debug, PartialEq, Eq)]
pub enum ReadFault {
    /// Memory ran out.
    Memory,
    /// The disk failed, and counted that.
    Failed,
}

impl From<Failed> for ReadFault {
    ghost from_gives = { λ _ fault. fault ≡ NotRead };

    fn from(_: Failed) -> ReadFault {
        ReadFault::Failed
    }
}

impl From<AllocError> for ReadFault {
    ghost from_gives = { λ _ fault. fault ≡ NoRoom };

    fn from(_: AllocError) -> ReadFault {
        ReadFault::Memory
    }
}

/// Puts bytes into a file, over what stands there and past its end, and waits until a crash leaves
/// them. After an error a crash may leave any bytes in that range.
pub fn write_and_sync<D: Disk>(disk: &mut D, file: u64, at: u64, bytes: &[u8]) -> Result<(), Failed>
    requires fits { at + length bytes.now ≤ 2 ^ 62 }
    requires no_gap { IsTrue (D.state disk.old).honest
        → at ≤ length ((D.state disk.old).reads file) }
    // What `Ok` holds.
    ensures written { IsTrue (D.state disk.old).honest → OnOk result
        (Changes file (Holds at bytes.now) (D.state disk.old).reads (D.state disk.new).reads) }
    ensures durable { IsTrue (D.state disk.old).honest → OnOk result ((left : List ℕ)
        → (D.state disk.new).may_leave file left
        → Holds at bytes.now ((D.state disk.old).reads file) left) }
    // What stays.
    ensures changes { OnlyChanges file (Torn at (length bytes.now))
        (D.state disk.old) (D.state disk.new) }
    // At each moment.
    ensures time { Elapses 2
        (MayFollow file (Torn at (length bytes.now)) (D.state disk.old).may_leave)
        (D.state disk.old) (D.state disk.new) }
    // When the error comes.
    ensures cause { OnErr result
        (Rose (D.state disk.old).write_faults (D.state disk.new).write_faults) }
{
    disk.write(file, at, bytes)?;
    disk.sync(file)
}

/// Syncs a file, so that a crash leaves what is read, and reads it whole.
pub fn read_all<D: Disk>(alloc: Global, disk: &mut D, file: u64) -> Result<Vec<u8>, ReadFault>
    // What `Ok` holds.
    ensures bytes { IsTrue (D.state disk.old).honest
        → IfOk result (λ bytes. bytes.items ≡ (D.state disk.old).reads file) }
    ensures synced { IsTrue (D.state disk.old).honest → OnOk result ((left : List ℕ)
        → (D.state disk.new).may_leave file left → left ≡ (D.state disk.old).reads file) }
    // What stays.
    ensures quiet { Quiet (D.state disk.old) (D.state disk.new) }
    // At each moment.
    ensures time { Elapses 3 (Each (D.state disk.old).may_leave)
        (D.state disk.old) (D.state disk.new) }
    // When the error comes.
    ensures cause { IsErrOf result ReadFault.Failed
        → Rose (D.state disk.old).read_faults (D.state disk.new).read_faults
        ⊎ Rose (D.state disk.old).write_faults (D.state disk.new).write_faults }
{
    disk.sync(file)?;
    let len = disk.len(file)?;
    let mut bytes = vec![in alloc; 0; len as usize]?;
    let n = disk.read(file, 0, &mut bytes)?;
    bytes.truncate(n);
    Ok(bytes)
}
