//! Rows worked out by hand: the bytes of one series are those of a part file of 194 bytes that
//! holds it.

use crate::rows::{cells, placed};
use std::alloc::{AllocError, Global};
use std::test::Fail;
use test_rows::bytes_of;
use vm_base::{List, Text};
use vm_index::{Index, IndexFault, and, minus, or};
use vm_labels::{LabelFault, Labels, Pair};

/// The table of `up`.
const UP: &str = r"\x00\x00\x00\x10\x00\x01\x00\x08__name__\x00\x02up";

/// The postings of `up`.
const UP_POSTINGS: &str =
    r"\x00\x00\x00\x00\x00\x00\x00\x01\x00\x08__name__\x00\x02up\x00\x00\x00\x00\x00\x00\x00\x01\x00\x00\x00\x00\x00\x00\x00\x00";

/// The table of `a{i="1"}` and `a{i="2"}`.
const TWO: &str =
    r"\x00\x00\x00\x15\x00\x02\x00\x08__name__\x00\x01a\x00\x01i\x00\x011\x00\x00\x00\x15\x00\x02\x00\x08__name__\x00\x01a\x00\x01i\x00\x012";

/// The postings of these two.
const TWO_POSTINGS: &str =
    r"\x00\x00\x00\x00\x00\x00\x00\x03\x00\x08__name__\x00\x01a\x00\x00\x00\x00\x00\x00\x00\x02\x00\x00\x00\x00\x00\x00\x00\x00\x00\x00\x00\x00\x00\x00\x00\x01\x00\x01i\x00\x011\x00\x00\x00\x00\x00\x00\x00\x01\x00\x00\x00\x00\x00\x00\x00\x00\x00\x01i\x00\x012\x00\x00\x00\x00\x00\x00\x00\x01\x00\x00\x00\x00\x00\x00\x00\x01";

/// A table, postings, how many label sets, and the field that breaks, if one does. A name stands
/// for the bytes of the constant, with the highest bit of a byte flipped where `^` and the byte's
/// place follow.
///
/// A flipped byte of the set's length or of its number of labels makes the set too long for the
/// table or for itself, one of a text's length makes the text too long, and one of a text makes it
/// no name and no UTF-8.
const TABLES: &str = r"|\x00\x00\x00\x00\x00\x00\x00\x00|0 none
UP|UP_POSTINGS|1 none
UP|UP_POSTINGS|0 table 0
UP|UP_POSTINGS|2 table 20
\x00\x00\x00\x10\x00\x01\x00\x08__name__\x00\x02u|UP_POSTINGS|1 table 0
\x00\x00\x00\x02\x00\x00|UP_POSTINGS|1 table 4
\x00\x00\x00\x03\x00\x01\x00|UP_POSTINGS|1 table 6
\x00\x00\x00\x08\x00\x01\x00\x01a\x00\x01b\x00\x00\x00\x08\x00\x01\x00\x01a\x00\x01b|UP_POSTINGS|2 table 16
\x00\x00\x00\x08\x00\x01\x00\x01a\x00\x01c\x00\x00\x00\x08\x00\x01\x00\x01a\x00\x01b|UP_POSTINGS|2 table 16
UP||1 postings 0
UP|\x00\x00\x00\x00\x00\x00\x00\x01|1 postings 8
UP|\x00\x00\x00\x00\x00\x00\x00\x01\x00\x08__|1 postings 10
UP|TWO_POSTINGS|1 postings 0
TWO|UP_POSTINGS|2 postings 0
UP|\x00\x00\x00\x00\x00\x00\x00\x01\x00\x08__name__\x00\x02up\x00\x00\x00\x00\x00\x00\x00\x01\x00\x00\x00\x00\x00\x00\x00|1 postings 30
|UP_POSTINGS|0 postings 0
UP^0|UP_POSTINGS|1 table 0
UP^3|UP_POSTINGS|1 table 0
UP^4|UP_POSTINGS|1 table 20
UP^5|UP_POSTINGS|1 table 20
UP^6|UP_POSTINGS|1 table 8
UP^7|UP_POSTINGS|1 table 8
UP^8|UP_POSTINGS|1 table 8
UP^15|UP_POSTINGS|1 table 8
UP^16|UP_POSTINGS|1 table 18
UP^18|UP_POSTINGS|1 table 18
UP^19|UP_POSTINGS|1 table 18
UP|UP_POSTINGS^0|1 postings 0
UP|UP_POSTINGS^7|1 postings 0
UP|UP_POSTINGS^9|1 postings 8
UP|UP_POSTINGS^10|1 postings 10
UP|UP_POSTINGS^17|1 postings 10
UP|UP_POSTINGS^19|1 postings 18
UP|UP_POSTINGS^21|1 postings 20
UP|UP_POSTINGS^22|1 postings 22
UP|UP_POSTINGS^29|1 postings 22
UP|UP_POSTINGS^30|1 postings 30
UP|UP_POSTINGS^37|1 postings 30";

/// A name and a value, and the ordinals of the sets of `TWO` that are found.
const LOOKUPS: &str = r"__name__|a|0 1
i|2|1
i|3|
i||";

/// A name and the values that the sets of `TWO` have of it; without a name, the names that they
/// have.
const LISTS: &str = r"|__name__ i
i|1 2
j|";

/// The text of the constant that a word names, or else the word.
fn named(word: &str) -> &str {
    match word {
        "UP" => UP,
        "UP_POSTINGS" => UP_POSTINGS,
        "TWO" => TWO,
        "TWO_POSTINGS" => TWO_POSTINGS,
        _ => word,
    }
}

/// The bytes of a cell of a row of tables.
fn bytes_in(alloc: Global, cell: &str) -> Result<Vec<u8>, AllocError> {
    let (name, turned) = cell.split_once('^').unwrap_or((cell, ""));
    let mut bytes = bytes_of(alloc, named(name))?;
    if let Ok(at) = turned.parse::<usize>() {
        if let Some(byte) = bytes.get_mut(at) {
            *byte ^= 0x80;
        }
    }
    Ok(bytes)
}

/// Which of the two breaks, by the first letter of its word in a row, and where.
fn fault(alloc: Global, table: &[u8], postings: &[u8], count: u64) -> (u8, u64) {
    match Index::read(alloc, table, postings, count) {
        Ok(_) => (b'n', 0),
        Err(IndexFault::BrokenTable { at }) => (b't', at),
        Err(IndexFault::BrokenPostings { at }) => (b'p', at),
        Err(IndexFault::Memory) => (b'm', 0),
    }
}

fn is_right(alloc: Global, row: &str) -> Result<bool, AllocError> {
    let Some((table, postings, due)) = cells(row) else {
        return Ok(false);
    };
    let Some((count, due)) = due.split_once(' ') else {
        return Ok(false);
    };
    let Ok(count) = count.parse() else {
        return Ok(false);
    };
    let table = bytes_in(alloc, table)?;
    let postings = bytes_in(alloc, postings)?;
    Ok(placed(due) == Some(fault(alloc, &table, &postings, count)))
}

#[test]
fn broken_fields_have_places(rt: HostRuntime) -> Result<(), Fail> {
    for row in TABLES.lines() {
        assert!(rt; is_right(rt.alloc(), row)?, "{row}");
    }
    Ok(())
}

/// The label set of `up`.
fn up(alloc: Global) -> Result<Labels, LabelFault> {
    let mut pairs = List::new(alloc);
    pairs.push(Pair {
        name: Text::from_str(alloc, "__name__")?,
        value: Text::from_str(alloc, "up")?,
    })?;
    Labels::build(alloc, pairs)
}

/// The index of one set, where it keeps the limits.
fn of_one(alloc: Global, set: Labels) -> Result<Option<Index>, AllocError> {
    if set.limit().is_some() {
        return Ok(None);
    }
    let mut sets = List::new(alloc);
    sets.push(set)?;
    Ok(Some(Index::build(alloc, sets)?))
}

#[test]
fn one_series_is_built(rt: HostRuntime) -> Result<(), Fail> {
    let alloc = rt.alloc();
    let index = of_one(alloc, up(alloc)?)?.ok_or("the set breaks a limit")?;
    assert!(rt; index.table() == bytes_of(alloc, UP)?.as_slice());
    assert!(rt; index.postings() == bytes_of(alloc, UP_POSTINGS)?.as_slice());
    assert!(rt; index.sets().len() == 1);
    Ok(())
}

/// Whether these are the texts, with a blank between two.
fn are(texts: &List<Text>, due: &str) -> bool {
    let mut due = due.split_whitespace();
    for text in texts.as_slice() {
        if due.next() != Some(text.as_str()) {
            return false;
        }
    }
    due.next().is_none()
}

/// Whether the ordinals of a row are found.
fn is_found(index: &Index, row: &str) -> bool {
    let Some((name, value, due)) = cells(row) else {
        return false;
    };
    let mut due = due.split_whitespace();
    for ordinal in index.lookup(name, value) {
        let Some(word) = due.next() else {
            return false;
        };
        if word.parse().ok() != Some(*ordinal) {
            return false;
        }
    }
    due.next().is_none()
}

/// Whether the names of the index, or the values of a name, are those of a row.
fn is_listed(alloc: Global, index: &Index, row: &str) -> Result<bool, AllocError> {
    match row.split_once('|') {
        Some(("", due)) => Ok(are(&index.names(alloc)?, due)),
        Some((name, due)) => Ok(are(&index.values(alloc, name)?, due)),
        None => Ok(false),
    }
}

#[test]
fn labels_are_looked_up(rt: HostRuntime) -> Result<(), Fail> {
    let table = bytes_of(rt.alloc(), TWO)?;
    let postings = bytes_of(rt.alloc(), TWO_POSTINGS)?;
    let index = Index::read(rt.alloc(), &table, &postings, 2)?;
    for row in LOOKUPS.lines() {
        assert!(rt; is_found(&index, row), "{row}");
    }
    for row in LISTS.lines() {
        assert!(rt; is_listed(rt.alloc(), &index, row)?, "{row}");
    }
    Ok(())
}

#[test]
fn ordinals_are_combined(rt: HostRuntime) -> Result<(), Fail> {
    let mut out = Vec::new(rt.alloc());
    and(&[1, 3, 5], &[2, 3, 5, 8], &mut out)?;
    assert!(rt; out.as_slice() == [3, 5].as_slice());
    or(&[1, 3, 5], &[2, 3, 9], &mut out)?;
    assert!(rt; out.as_slice() == [1, 2, 3, 5, 9].as_slice());
    minus(&[1, 3, 5], &[2, 3, 9], &mut out)?;
    assert!(rt; out.as_slice() == [1, 5].as_slice());
    Ok(())
}
