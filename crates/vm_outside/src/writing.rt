ghost use Rattle.std.specs.Prelude.{◌≡◌, ℕ, ◌≤◌, length, take, OnOk, OnErr};
ghost use Rattle.vm_outside.specs.Outside.{Rose, Takes};

use crate::{Failed, Sink};

/// Writes all bytes, in as many calls as it takes.
///
/// After `Failed` the sink has taken some first part of them: at least one call failed or took
/// nothing, and is counted.
pub fn write_all<K: Sink>(sink: &mut K, bytes: &[u8]) -> Result<(), Failed>
    ensures all { OnOk result (Takes (K.taken sink.old) bytes.now (K.taken sink.new)) }
    ensures part { OnErr result ((n : ℕ) × (n ≤ length bytes.now)
        × Takes (K.taken sink.old) (take n bytes.now) (K.taken sink.new)) }
    ensures counted { K.faults sink.old ≤ K.faults sink.new }
    ensures failed { OnErr result (Rose (K.faults sink.old) (K.faults sink.new)) }
{
    let mut done = 0;
    while done < bytes.len() {
        let taken = sink.write(&bytes[done..])?;
        if taken == 0 {
            return Err(Failed);
        }
        done += taken;
    }
    Ok(())
}
