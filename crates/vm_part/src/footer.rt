//! The end of a part file.
ghost use Rattle.std.specs.Prelude.{◌≡◌, ◌==◌, ◌+◌, ◌-◌, ◌*◌, ◌^◌, ◌<◌, ◌≤◌, true, false, None, Some, IfOk, IfErr, OnOk};
ghost use Rattle.vm_block.specs.Header.{first_broken};
ghost use Rattle.vm_part.specs.Broken.{footer_at, number_at};
ghost use Rattle.vm_part.specs.inner.Reading.{AreSections, front_rules, is_entries_place, is_postings_place, is_series_count, is_table_place};

use crate::fields::{check, has_mark, read_number};
use vm_base::Broken;

/// The word at the front of a file.
pub(crate) const FRONT_MARK: &[u8; 8] = b"VMDPART1";

/// The word at the end of a file.
pub(crate) const END_MARK: &[u8; 8] = b"VMDPEND1";

/// The numbers of a part's footer.
#[derive(Clone, Copy, PartialEq, Eq)]
pub(crate) struct Footer {
    /// Where the entries of the series stand, behind all blocks.
    pub entries_at: u64,
    /// Where the label table stands.
    pub table_at: u64,
    /// Where the postings stand.
    pub postings_at: u64,
    /// How many series there are.
    pub series: u64,
    /// How many samples they have.
    pub rows: u64,
}

/// The footer of a file of so many bytes. The marks at both ends stand there, and the footer's
/// fields keep their rules.
pub(crate) fn read_footer(len: u64, bytes: &[u8]) -> Result<Footer, Broken>
    requires { 56 ≤ len }
    ensures footer { IfOk result (λ footer. footer ≡ footer_at (len - 48) bytes.now) }
    ensures sections { IfOk result (λ footer. AreSections (len - 48) bytes.now footer) }
    ensures kept { OnOk result (first_broken (front_rules (len - 48) bytes.now) ≡ None) }
    ensures broken { IfErr result
        (λ e. first_broken (front_rules (len - 48) bytes.now) ≡ Some e.at) }
{
    let at = len - 48;
    check(has_mark(bytes, 0, FRONT_MARK), 0)?;
    let entries_at = read_entries_at(bytes, at)?;
    let table_at = read_table_at(bytes, at, entries_at)?;
    let postings_at = read_postings_at(bytes, at, table_at)?;
    let series = read_series(bytes, at, entries_at, table_at)?;
    let rows = read_number(bytes, at + 32)?;
    check(has_mark(bytes, at + 40, END_MARK), at + 40)?;
    Ok(Footer {
        entries_at,
        table_at,
        postings_at,
        series,
        rows,
    })
}

/// Where the entries stand: behind the front, and before the footer.
fn read_entries_at(bytes: &[u8], at: u64) -> Result<u64, Broken>
    requires { at + 48 < 2 ^ 64 }
    ensures number { IfOk result (λ n. n ≡ number_at at bytes.now) }
    ensures kept { OnOk result (is_entries_place at bytes.now ≡ true) }
    ensures broken { IfErr result (λ e. (is_entries_place at bytes.now ≡ false) × (e.at ≡ at)) }
{
    let entries_at = read_number(bytes, at)?;
    check(8 <= entries_at && entries_at <= at, at)?;
    Ok(entries_at)
}

/// Where the label table stands: behind some whole entries.
fn read_table_at(bytes: &[u8], at: u64, entries_at: u64) -> Result<u64, Broken>
    requires place { at + 48 < 2 ^ 64 }
    requires entries { entries_at ≡ number_at at bytes.now }
    ensures number { IfOk result (λ n. n ≡ number_at (at + 8) bytes.now) }
    ensures kept { OnOk result (is_table_place at bytes.now ≡ true) }
    ensures broken { IfErr result (λ e. (is_table_place at bytes.now ≡ false) × (e.at ≡ at + 8)) }
{
    let table_at = read_number(bytes, at + 8)?;
    let is_kept = entries_at < table_at && (table_at - entries_at) % 40 == 0 && table_at <= at;
    check(is_kept, at + 8)?;
    Ok(table_at)
}

/// Where the postings stand: behind the label table.
fn read_postings_at(bytes: &[u8], at: u64, table_at: u64) -> Result<u64, Broken>
    requires place { at + 48 < 2 ^ 64 }
    requires table { table_at ≡ number_at (at + 8) bytes.now }
    ensures number { IfOk result (λ n. n ≡ number_at (at + 16) bytes.now) }
    ensures kept { OnOk result (is_postings_place at bytes.now ≡ true) }
    ensures broken { IfErr result
        (λ e. (is_postings_place at bytes.now ≡ false) × (e.at ≡ at + 16)) }
{
    let postings_at = read_number(bytes, at + 16)?;
    check(table_at <= postings_at && postings_at <= at, at + 16)?;
    Ok(postings_at)
}

/// How many series there are: as many as the entries between two places.
fn read_series(bytes: &[u8], at: u64, entries_at: u64, table_at: u64) -> Result<u64, Broken>
    requires place { at + 48 < 2 ^ 64 }
    requires entries { entries_at ≡ number_at at bytes.now }
    requires table { table_at ≡ number_at (at + 8) bytes.now }
    requires rise { entries_at ≤ table_at }
    ensures number { IfOk result (λ n. n ≡ number_at (at + 24) bytes.now) }
    ensures kept { OnOk result (is_series_count at bytes.now ≡ true) }
    ensures broken { IfErr result (λ e. (is_series_count at bytes.now ≡ false) × (e.at ≡ at + 24)) }
{
    let series = read_number(bytes, at + 24)?;
    check(are_as_many(series, table_at - entries_at), at + 24)?;
    Ok(series)
}

/// Whether so many entries have so many bytes.
fn are_as_many(series: u64, entries_len: u64) -> bool
    ensures { result ≡ (series * 40 == entries_len) }
{
    entries_len % 40 == 0 && entries_len / 40 == series
}
