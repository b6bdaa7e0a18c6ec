//! A part that is read from a file.

ghost use Rattle.std.specs.Prelude.{◌≡◌, ◌≤◌, List, length, take, IfErr, IfOk, IsErrOf, IsTrue};
ghost use Rattle.vm_outside.specs.Disk.{Each, Elapses, OnlyReads};
ghost use Rattle.vm_outside.specs.Outside.{Rose};
ghost use Rattle.vm_outside.specs.declared.files.ReadFault.TheVariants.{Failed as NotRead};
ghost use Rattle.vm_part.specs.Files.{IsDamage, IsFileFault, IsNoDamage, IsOpened};
ghost use Rattle.vm_part.specs.Part.{IsPart, Stored};

use crate::{MemPart, PartFault, PartReader, ReadFault};
use std::alloc::Global;
use std::cmp::min;
use std::rc::Rc;
use vm_outside::{Disk, ReadFault as FileFault};

/// Opens the part that the first `len` bytes of a file are. It reads them all, and checks all of
/// them.
///
/// `Damaged` names the first wrong field, as `MemPart::read` does: also where the file has fewer
/// bytes.
pub fn open_part<D: Disk>(
    alloc: Global,
    disk: &mut D,
    file: u64,
    len: u64,
) -> Result<PartReader, PartFault>
    // What `Ok` holds.
    ensures opened { IfOk result (λ reader. IsOpened file len reader) }
    ensures part { IsTrue (D.state disk.old).honest
        → IfOk result (λ reader. reader.part.bytes ≡ take len ((D.state disk.old).reads file)) }
    // When the error comes.
    ensures only { IsTrue (D.state disk.old).honest → (all : List Stored)
        → IsPart (take len ((D.state disk.old).reads file)) all
        → len ≤ length ((D.state disk.old).reads file) → IfErr result IsNoDamage }
    ensures damaged { IsTrue (D.state disk.old).honest
        → IfErr result (λ fault.
        IsFileFault file len (take len ((D.state disk.old).reads file)) fault) }
    ensures damage { IfErr result (λ fault. IsDamage file len fault) }
    ensures cause { IsErrOf result PartFault.DiskFault
        → Rose (D.state disk.old).read_faults (D.state disk.new).read_faults }
    // What stays.
    ensures reads { OnlyReads len (D.state disk.old) (D.state disk.new) }
    // At each moment.
    ensures time { Elapses 2 (Each (D.state disk.old).may_leave)
        (D.state disk.old) (D.state disk.new) }
{
    let bytes = match read_front(alloc, disk, file, len) {
        Ok(bytes) => bytes,
        Err(FileFault::Memory) => return Err(PartFault::Memory),
        Err(FileFault::Failed) => return Err(PartFault::DiskFault),
    };
    let part = match MemPart::read(alloc, len, bytes) {
        Ok(part) => part,
        Err(ReadFault::Broken { at }) => return Err(PartFault::Damaged { file, at }),
        Err(ReadFault::Memory) => return Err(PartFault::Memory),
    };
    match Rc::new(alloc, part) {
        Ok(part) => Ok(PartReader::new(file, part)),
        Err(_) => Err(PartFault::Memory),
    }
}

/// The first bytes of a file, so many or all that there are.
fn read_front<D: Disk>(
    alloc: Global,
    disk: &mut D,
    file: u64,
    len: u64,
) -> Result<Vec<u8>, FileFault>
    ensures bytes { IsTrue (D.state disk.old).honest
        → IfOk result (λ bytes. bytes.items ≡ take len ((D.state disk.old).reads file)) }
    ensures within { IfOk result (λ bytes. length bytes.items ≤ len) }
    ensures cause { IsErrOf result NotRead
        → Rose (D.state disk.old).read_faults (D.state disk.new).read_faults }
    ensures reads { OnlyReads len (D.state disk.old) (D.state disk.new) }
    ensures time { Elapses 2 (Each (D.state disk.old).may_leave)
        (D.state disk.old) (D.state disk.new) }
{
    let there = disk.len(file)?;
    let mut bytes = vec![in alloc; 0; min(there, len) as usize]?;
    let n = disk.read(file, 0, &mut bytes)?;
    bytes.truncate(n);
    Ok(bytes)
}
