//! The label table and the postings as bytes.

ghost use Rattle.std.specs.Prelude.{◌≡◌, ◌<◌, ◌^◌, ◌∷◌, ◌++◌, length, map, false, None, IfOk, OnOk};
ghost use Rattle.std.specs.List.{AllByRecursion, concat};
ghost use Rattle.std.specs.Int.{w64, to_be_bytes};
ghost use Rattle.vm_labels.specs.Labels.{is_too_long, limit_of};
ghost use Rattle.vm_labels.specs.Bytes.{HasBytes};
ghost use Rattle.vm_index.specs.Index.{KeepLimits};
ghost use Rattle.vm_index.specs.Bytes.{framed, posting_fields, postings_bytes, table_bytes, text_fields};

use crate::Posting;
use std::alloc::{AllocError, Global};
use vm_labels::Labels;

/// The label table of sets.
pub(crate) fn table_of(alloc: Global, sets: &[Labels]) -> Result<Vec<u8>, AllocError>
    requires { KeepLimits sets.now }
    ensures table { IfOk result (λ table. table.items ≡ table_bytes sets.now) }
    ensures written { OnOk result (AllByRecursion HasBytes sets.now) }
{
    let mut table = Vec::new(alloc);
    let mut bytes = Vec::new(alloc);
    for set in sets {
        put_set(&mut table, &mut bytes, set)?;
    }
    Ok(table)
}

/// Appends a set with its length. `bytes` is room for the set's bytes.
fn put_set(table: &mut Vec<u8>, bytes: &mut Vec<u8>, set: &Labels) -> Result<(), AllocError>
    requires { limit_of set.now ≡ None }
    ensures table { OnOk result (table.new.items ≡ table.old.items ++ framed set.now) }
    ensures written { OnOk result (HasBytes set.now) }
{
    bytes.clear();
    set.bytes(bytes)?;
    table.extend_from_slice(&(bytes.len() as u32).to_be_bytes())?;
    table.extend_from_slice(bytes)?;
    Ok(())
}

/// The bytes of postings.
pub(crate) fn bytes_of(alloc: Global, postings: &[Posting]) -> Result<Vec<u8>, AllocError>
    requires { AllByRecursion (λ q. is_too_long q.pair ≡ false) postings.now }
    ensures { IfOk result (λ bytes. bytes.items ≡ postings_bytes postings.now) }
{
    let mut out = Vec::new(alloc);
    put_number(&mut out, postings.len() as u64)?;
    for posting in postings {
        put_posting(&mut out, posting)?;
    }
    Ok(out)
}

/// Appends the bytes of a posting.
fn put_posting(out: &mut Vec<u8>, posting: &Posting) -> Result<(), AllocError>
    requires { is_too_long posting.now.pair ≡ false }
    ensures { OnOk result (out.new.items ≡ out.old.items ++ concat (posting_fields posting.now)) }
{
    put_text(out, posting.pair.name.as_str())?;
    put_text(out, posting.pair.value.as_str())?;
    put_numbers(out, posting.ordinals.as_slice())
}

/// Appends how many numbers there are, and each number.
fn put_numbers(out: &mut Vec<u8>, numbers: &[u64]) -> Result<(), AllocError>
    ensures { OnOk result
        (out.new.items ≡ out.old.items
        ++ concat (to_be_bytes w64 (length numbers.now) ∷ map (to_be_bytes w64) numbers.now)) }
{
    put_number(out, numbers.len() as u64)?;
    for number in numbers {
        put_number(out, *number)?;
    }
    Ok(())
}

/// Appends a text with its length before it.
fn put_text(out: &mut Vec<u8>, text: &str) -> Result<(), AllocError>
    requires { length text.now < 2 ^ 16 }
    ensures { OnOk result (out.new.items ≡ out.old.items ++ concat (text_fields text.now)) }
{
    out.extend_from_slice(&(text.len() as u16).to_be_bytes())?;
    out.extend_from_slice(text.as_bytes())?;
    Ok(())
}

/// Appends a number of eight bytes.
fn put_number(out: &mut Vec<u8>, number: u64) -> Result<(), AllocError>
    ensures { OnOk result (out.new.items ≡ out.old.items ++ to_be_bytes w64 number) }
{
    out.extend_from_slice(&number.to_be_bytes())
}
