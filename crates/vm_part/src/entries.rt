//! The entries of a part file.
ghost use Rattle.std.specs.Prelude.{◌≡◌, ◌==◌, ◌+◌, ◌*◌, ◌^◌, ◌<◌, ◌≤◌, ◌&&◌, ◌||◌, nat_le, not, length, None, Some, IfOk, IfErr, OnOk};
ghost use Rattle.vm_block.specs.Header.{first_broken, is_last_time, is_time};
ghost use Rattle.vm_part.specs.Broken.{ends_there, entries_at, entry_at, entry_rules, may_start, none_without_blocks};
ghost use Rattle.vm_part.specs.inner.Reading.{IsFaultOf, entries_section_rules};

use crate::fields::{check, number_at};
use crate::footer::Footer;
use crate::{Entry, ReadFault};
use std::alloc::Global;
use vm_base::limits::{MAX_BLOCK_SAMPLES, MAX_TIME};
use vm_base::{Broken, List};

/// How many bytes an entry takes.
const ENTRY_LEN: u64 = 40;

/// The entries of a file with this footer, which keep their rules.
pub(crate) fn read_entries(
    alloc: Global,
    bytes: &[u8],
    footer: &Footer,
) -> Result<List<Entry>, ReadFault>
    requires place { footer.now.entries_at + 40 * footer.now.series ≡ footer.now.table_at }
    requires within { footer.now.table_at ≤ length bytes.now }
    ensures entries { IfOk result
        (λ entries. entries ≡ entries_at footer.now.series footer.now.entries_at bytes.now) }
    ensures kept { OnOk result (first_broken (entries_section_rules footer.now bytes.now) ≡ None) }
    ensures broken { IfErr result
        (λ fault. IsFaultOf (entries_section_rules footer.now bytes.now) fault) }
{
    let mut entries = List::new(alloc);
    let mut before = None;
    let mut rows: u128 = 0;
    'each: for n in 0..footer.series {
        let at = footer.entries_at + ENTRY_LEN * n;
        let entry = entry_at(bytes, at);
        rows += u128::from(entry.rows);
        let is_last = n + 1 == footer.series;
        check_entry(
            footer.entries_at,
            at,
            before,
            is_last,
            adds_up(is_last, rows, footer.rows),
            &entry,
        )?;
        entries.push(entry)?;
        before = Some(entry);
    }
    Ok(entries)
}

/// The entry at a place.
fn entry_at(bytes: &[u8], at: u64) -> Entry
    requires { at + 40 ≤ length bytes.now }
    ensures { result ≡ entry_at at bytes.now }
{
    Entry {
        start: number_at(bytes, at),
        blocks: number_at(bytes, at + 8),
        rows: number_at(bytes, at + 16),
        first_time: number_at(bytes, at + 24),
        last_time: number_at(bytes, at + 32),
    }
}

/// Whether the rows of all entries up to the last one are as many as the footer says.
fn adds_up(is_last: bool, so_far: u128, rows: u64) -> bool
    ensures { result ≡ (not is_last || so_far == rows) }
{
    !is_last || so_far == u128::from(rows)
}

/// Sees that an entry at a place keeps its rules. The blocks of all series end at `end`, and
/// `adds_up` is false where the rows of all entries are wrong, which is found at the last one.
fn check_entry(
    end: u64,
    at: u64,
    before: Option<Entry>,
    is_last: bool,
    adds_up: bool,
    entry: &Entry,
) -> Result<(), Broken>
    requires { at + 40 < 2 ^ 64 }
    ensures kept { OnOk result
        (first_broken (entry_rules end at before is_last adds_up entry.now) ≡ None) }
    ensures broken { IfErr result
        (λ e. first_broken (entry_rules end at before is_last adds_up entry.now) ≡ Some e.at) }
{
    check(
        may_start(before, entry.start) && ends_there(end, is_last, entry),
        at,
    )?;
    check(have_room(entry.start, entry.blocks, end), at + 8)?;
    check(may_have_rows(entry.blocks, entry.rows) && adds_up, at + 16)?;
    check(may_begin(entry), at + 24)?;
    check(may_end(entry), at + 32)?;
    Ok(())
}

/// Whether the blocks of a series may begin at a place, behind those of the series before it.
fn may_start(before: Option<Entry>, start: u64) -> bool
    ensures { result ≡ may_start before start }
{
    match before {
        None => start == 8,
        Some(entry) => {
            if entry.blocks == 0 {
                start == entry.start
            } else {
                have_room(entry.start, entry.blocks, start)
            }
        }
    }
}

/// Whether a last series without blocks has its place behind all blocks.
fn ends_there(end: u64, is_last: bool, entry: &Entry) -> bool
    ensures { result ≡ ends_there end is_last entry.now }
{
    !is_last || entry.blocks > 0 || entry.start == end
}

/// Whether the headers of so many blocks fit in between two places.
fn have_room(start: u64, blocks: u64, end: u64) -> bool
    ensures { result ≡ nat_le (start + 40 * blocks) end }
{
    start <= end && blocks <= (end - start) / 40
}

/// Whether so many blocks may have so many samples.
fn may_have_rows(blocks: u64, rows: u64) -> bool
    ensures { result ≡ (nat_le blocks rows && nat_le rows (8192 * blocks)) }
{
    blocks <= rows && rows <= blocks.saturating_mul(MAX_BLOCK_SAMPLES)
}

/// Whether a series may begin at its first time.
fn may_begin(entry: &Entry) -> bool
    ensures { result
        ≡ (is_time entry.now.first_time && none_without_blocks entry.now entry.now.first_time) }
{
    entry.first_time <= MAX_TIME && (entry.blocks > 0 || entry.first_time == 0)
}

/// Whether a series may end at its last time.
fn may_end(entry: &Entry) -> bool
    ensures { result
        ≡ (is_last_time entry.now.first_time entry.now.last_time
        && none_without_blocks entry.now entry.now.last_time) }
{
    entry.last_time <= MAX_TIME
        && entry.first_time <= entry.last_time
        && (entry.blocks > 0 || entry.last_time == 0)
}
