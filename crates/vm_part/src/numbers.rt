//! Numbers of eight bytes, and what consists of them.

ghost use Rattle.std.specs.Prelude.{◌≡◌, ◌++◌, flat_map, OnOk};
ghost use Rattle.std.specs.Int.{w64, to_be_bytes};
ghost use Rattle.vm_part.specs.inner.Making.{footer_bytes};
ghost use Rattle.vm_part.specs.Part.{entry_bytes};

use crate::Entry;
use crate::footer::{END_MARK, Footer};
use std::alloc::AllocError;

/// Appends an entry for each series.
pub(crate) fn put_entries(out: &mut Vec<u8>, entries: &[Entry]) -> Result<(), AllocError>
    ensures { OnOk result (out.new.items ≡ out.old.items ++ flat_map entry_bytes entries.now) }
{
    for entry in entries {
        put_numbers(
            out,
            &[
                entry.start,
                entry.blocks,
                entry.rows,
                entry.first_time,
                entry.last_time,
            ],
        )?;
    }
    Ok(())
}

/// Appends the footer, and the word at the end.
pub(crate) fn put_footer(out: &mut Vec<u8>, footer: &Footer) -> Result<(), AllocError>
    ensures { OnOk result (out.new.items ≡ out.old.items ++ footer_bytes footer.now) }
{
    put_numbers(
        out,
        &[
            footer.entries_at,
            footer.table_at,
            footer.postings_at,
            footer.series,
            footer.rows,
        ],
    )?;
    out.extend_from_slice(END_MARK)
}

/// Appends numbers, each with its highest byte first.
fn put_numbers(out: &mut Vec<u8>, numbers: &[u64]) -> Result<(), AllocError>
    ensures { OnOk result
        (out.new.items ≡ out.old.items ++ flat_map (to_be_bytes w64) numbers.now) }
{
    for number in numbers {
        out.extend_from_slice(&number.to_be_bytes())?;
    }
    Ok(())
}
