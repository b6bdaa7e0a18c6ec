//! Parts in memory, and bytes of parts of which some bits were changed.
//!
//! The bytes, the places and the sums come from a reader and a writer of parts in Python that were
//! written from the description of the format alone. The part of `up 1 900` and what parts are
//! merged into were also worked out by hand, and so were the places where several bits are changed.

use crate::rows::{cells, numbers, samples};
use std::alloc::{AllocError, Global};
use std::rc::Rc;
use std::test::Fail;
use test_rows::bytes_of;
use vm_base::{List, Stamped};
use vm_labels::{Batch, Row};
use vm_part::{MemPart, ReadFault, are_within_limits};
use vm_promtext::{Line, read_line};

/// The part of `up 1 900`: its front, its block, its entry, the label table, the postings and the
/// footer, with the places 48, 88 and 108, one series and one row.
const UP: &str = r"VMDPART1
\x00\x01\x03\x03\x00\x00\x00\x00\x00\x00\x00\x00\x00\x00\x03\x84\x00\x00\x00\x00\x00\x00\x03\x84\x00\x00\x00\x00\x00\x00\x00\x01\x00\x00\x00\x00\x00\x00\x00\x00
\x00\x00\x00\x00\x00\x00\x00\x08\x00\x00\x00\x00\x00\x00\x00\x01\x00\x00\x00\x00\x00\x00\x00\x01\x00\x00\x00\x00\x00\x00\x03\x84\x00\x00\x00\x00\x00\x00\x03\x84
\x00\x00\x00\x10\x00\x01\x00\x08__name__\x00\x02up
\x00\x00\x00\x00\x00\x00\x00\x01\x00\x08__name__\x00\x02up\x00\x00\x00\x00\x00\x00\x00\x01\x00\x00\x00\x00\x00\x00\x00\x00
\x00\x00\x00\x00\x00\x00\x00\x30\x00\x00\x00\x00\x00\x00\x00\x58\x00\x00\x00\x00\x00\x00\x00\x6c\x00\x00\x00\x00\x00\x00\x00\x01\x00\x00\x00\x00\x00\x00\x00\x01VMDPEND1";

/// Where that file breaks where the lowest bit of a byte is another one: the first and the last of
/// some bytes, and the place, none where it is another part.
const CHANGED: &str = r"0 7|0
8 9|8
10 11|48
12 13|none
14 15|14
16 17|16
18 21|24
22 22|8
23 25|24
26 29|8
30 30|24
31 31|8
32 39|none
40 40|40
41 43|8
44 44|44
45 47|8
48 55|48
56 62|56
63 63|48
64 71|64
72 73|72
74 77|80
78 78|8
79 81|80
82 85|8
86 86|80
87 87|8
88 91|88
92 92|108
93 93|94
94 97|96
98 98|118
99 99|96
100 101|118
102 103|96
104 105|106
106 107|128
108 115|108
116 117|116
118 125|118
126 127|126
128 129|128
130 137|130
138 145|138
146 152|146
153 161|154
162 168|162
169 169|108
170 177|170
178 185|64
186 193|186";

/// Which bit of each byte of that file is another one, and the sum of the places.
const CHANGED_SUMS: &str = r"0|1832436002
1|3716381350
2|2369398418
3|545612818
4|2366824533
5|1519249627
6|35574619
7|1126817939";

/// Forty series with a sample each, their numbers as values of a label.
const FORTY: &str = r#"up{i="00"} 0 1000
up{i="01"} 1 1001
up{i="02"} 2 1002
up{i="03"} 3 1003
up{i="04"} 4 1004
up{i="05"} 5 1005
up{i="06"} 6 1006
up{i="07"} 7 1007
up{i="08"} 8 1008
up{i="09"} 9 1009
up{i="10"} 10 1010
up{i="11"} 11 1011
up{i="12"} 12 1012
up{i="13"} 13 1013
up{i="14"} 14 1014
up{i="15"} 15 1015
up{i="16"} 16 1016
up{i="17"} 17 1017
up{i="18"} 18 1018
up{i="19"} 19 1019
up{i="20"} 20 1020
up{i="21"} 21 1021
up{i="22"} 22 1022
up{i="23"} 23 1023
up{i="24"} 24 1024
up{i="25"} 25 1025
up{i="26"} 26 1026
up{i="27"} 27 1027
up{i="28"} 28 1028
up{i="29"} 29 1029
up{i="30"} 30 1030
up{i="31"} 31 1031
up{i="32"} 32 1032
up{i="33"} 33 1033
up{i="34"} 34 1034
up{i="35"} 35 1035
up{i="36"} 36 1036
up{i="37"} 37 1037
up{i="38"} 38 1038
up{i="39"} 39 1039"#;

/// The sum of the bytes of their part.
const FORTY_BYTES: u32 = 1053832586;

/// Where the label table of that part begins and its postings end, and the sum of the places where
/// it breaks where the lowest bit of a byte between these is another one.
const FORTY_INDEX: (usize, usize) = (3208, 5558);

const FORTY_SUM: u32 = 2725799748;

/// Where that part breaks where the lowest bit of each of some bytes is another one. Byte 5597 ends
/// the footer's rows, so that the rows of the entries don't add up to them. The last entry stands
/// at 3168, with its blocks at 3176, its rows at 3184 and its times at 3192 and 3200; the first
/// time of the first one stands at 1632.
const CHANGED_TOGETHER: &str = r"5597|3184
5597 3192|3184
5597 3200|3184
5597 3176|3176
5597 1632|1632
3192 3200|3192";

/// How parts are merged: the interval in ms, a line for each part, and the samples of the merged
/// part.
const MERGED: &str = r"0|up 2 1005, up 1 1001|1001 1, 1005 2
10|up 2 1005, up 1 1001|1005 2";

/// The bytes of the part of `up 1 900`.
pub(crate) fn up(alloc: Global) -> Result<Vec<u8>, AllocError> {
    let mut all = Vec::new(alloc);
    for line in UP.lines() {
        let bytes = bytes_of(alloc, line)?;
        all.extend_from_slice(&bytes)?;
    }
    Ok(all)
}

/// The rows of lines of the Prometheus text format. An error where a line is none.
fn rows_of(alloc: Global, lines: &str) -> Result<List<Row>, AllocError> {
    let mut rows = List::new(alloc);
    for line in lines.lines() {
        match read_line(alloc, line.as_bytes(), 0)? {
            Line::Row(row) => rows.push(row)?,
            _ => return Err(AllocError),
        }
    }
    Ok(rows)
}

/// The part of such lines. An error where they are no rows within the limits of an import.
pub(crate) fn part_of(alloc: Global, lines: &str) -> Result<Rc<MemPart>, AllocError> {
    let batch = Batch {
        rows: rows_of(alloc, lines)?,
    };
    if batch.rows.is_empty() || !are_within_limits(&batch) {
        return Err(AllocError);
    }
    let part = MemPart::of_batch(alloc, &batch)?;
    Ok(Rc::new(alloc, part)?)
}

/// Whether a part has these samples in its first series, and no others.
fn has(alloc: Global, part: &MemPart, due: &[Stamped]) -> Result<bool, AllocError> {
    if part.index().sets().is_empty() {
        return Ok(false);
    }
    let found = part.samples(alloc, 0)?;
    Ok(found.as_slice() == due && part.rows() == due.len() as u64)
}

#[test]
fn a_row_is_these_bytes(rt: HostRuntime) -> Result<(), Fail> {
    let alloc = rt.alloc();
    let part = part_of(alloc, "up 1 900")?;
    let due = samples(alloc, "900 1")?;
    assert!(rt; part.image() == up(alloc)?.as_slice());
    assert!(rt; part.image().len() == 194);
    assert!(rt; has(alloc, &part, &due)?);
    Ok(())
}

/// Whether the parts, of which one has a row, are merged into a part that has these samples.
fn merge_into(
    alloc: Global,
    parts: &[Rc<MemPart>],
    interval: u64,
    due: &[Stamped],
) -> Result<bool, AllocError> {
    if !parts.iter().any(|part| part.rows() > 0) {
        return Ok(false);
    }
    let part = MemPart::of_parts(alloc, parts, interval)?;
    has(alloc, &part, due)
}

fn are_merged(alloc: Global, row: &str) -> Result<bool, AllocError> {
    let Some((interval, lines, due)) = cells(row) else {
        return Ok(false);
    };
    let Ok(interval) = interval.parse() else {
        return Ok(false);
    };
    let mut parts = Vec::new(alloc);
    for line in lines.split(", ") {
        parts.push(part_of(alloc, line)?)?;
    }
    let due = samples(alloc, due)?;
    merge_into(alloc, &parts, interval, &due)
}

#[test]
fn parts_are_merged(rt: HostRuntime) -> Result<(), Fail> {
    for row in MERGED.lines() {
        assert!(rt; are_merged(rt.alloc(), row)?, "{row}");
    }
    Ok(())
}

/// Changes a bit of a byte.
fn change(bytes: &mut [u8], at: usize, bit: u32) {
    if let Some(byte) = bytes.get_mut(at) {
        *byte ^= 1u8.wrapping_shl(bit);
    }
}

/// Where a file of these bytes breaks, none where it is a part.
fn broken_at(alloc: Global, bytes: Vec<u8>) -> Result<Option<u64>, AllocError> {
    let len = bytes.len() as u64;
    match MemPart::read(alloc, len, bytes) {
        Ok(_) => Ok(None),
        Err(ReadFault::Broken { at }) => Ok(Some(at)),
        Err(ReadFault::Memory) => Err(AllocError),
    }
}

/// Where a file breaks in which a bit of a byte was changed, none where it is a part.
fn place(alloc: Global, file: &[u8], at: usize, bit: u32) -> Result<Option<u64>, AllocError> {
    let mut bytes = Vec::from_slice(alloc, file)?;
    change(&mut bytes, at, bit);
    broken_at(alloc, bytes)
}

/// A place, or `none`.
fn place_of(word: &str) -> Option<Option<u64>> {
    match word {
        "none" => Some(None),
        _ => Some(Some(word.parse().ok()?)),
    }
}

/// Whether a file breaks at the place of a row.
fn breaks(alloc: Global, file: &[u8], row: &str) -> Result<bool, AllocError> {
    let Some((bytes, due)) = row.split_once('|') else {
        return Ok(false);
    };
    let (Some(bytes), Some(due)) = (numbers::<2>(bytes), place_of(due)) else {
        return Ok(false);
    };
    let [first, last] = bytes;
    for at in first..=last {
        if place(alloc, file, at as usize, 0)? != due {
            return Ok(false);
        }
    }
    Ok(true)
}

#[test]
fn each_changed_byte_breaks_at_its_place(rt: HostRuntime) -> Result<(), Fail> {
    let file = up(rt.alloc())?;
    for row in CHANGED.lines() {
        assert!(rt; breaks(rt.alloc(), &file, row)?, "{row}");
    }
    Ok(())
}

/// One sum for many numbers.
fn sum_on(sum: u32, number: u64) -> u32 {
    let number = u32::try_from(number).unwrap_or(u32::MAX);
    sum.wrapping_mul(31).wrapping_add(number)
}

/// The sum of a part's bytes.
fn sum_of(bytes: &[u8]) -> u32 {
    let mut sum = 0;
    for byte in bytes {
        sum = sum_on(sum, u64::from(*byte));
    }
    sum
}

/// The sum of the places for one bit of some bytes.
fn sum_of_places(
    alloc: Global,
    file: &[u8],
    from: usize,
    to: usize,
    bit: u32,
) -> Result<u32, AllocError> {
    let mut sum = 0;
    for at in from..to {
        let number = match place(alloc, file, at, bit)? {
            Some(place) => place.wrapping_add(1),
            None => 0,
        };
        sum = sum_on(sum, number);
    }
    Ok(sum)
}

/// Whether a bit of a file's bytes has the sum of a row.
fn is_sum(alloc: Global, file: &[u8], row: &str) -> Result<bool, AllocError> {
    let Some((bit, due)) = row.split_once('|') else {
        return Ok(false);
    };
    match (bit.parse(), due.parse()) {
        (Ok(bit), Ok(due)) => Ok(sum_of_places(alloc, file, 0, file.len(), bit)? == due),
        _ => Ok(false),
    }
}

#[test]
fn each_bit_breaks_at_its_places(rt: HostRuntime) -> Result<(), Fail> {
    let file = up(rt.alloc())?;
    for row in CHANGED_SUMS.lines() {
        assert!(rt; is_sum(rt.alloc(), &file, row)?, "{row}");
    }
    Ok(())
}

#[test]
fn the_index_of_forty_series_breaks_at_its_places(rt: HostRuntime) -> Result<(), Fail> {
    let part = part_of(rt.alloc(), FORTY)?;
    assert_eq!(rt; sum_of(part.image()), FORTY_BYTES);
    let (from, to) = FORTY_INDEX;
    assert_eq!(rt;
        sum_of_places(rt.alloc(), part.image(), from, to, 0)?,
        FORTY_SUM
    );
    Ok(())
}

/// Whether a file breaks at the place of a row where the lowest bit of each of its bytes is
/// changed.
fn breaks_together(alloc: Global, file: &[u8], row: &str) -> Result<bool, AllocError> {
    let Some((changed, due)) = row.split_once('|') else {
        return Ok(false);
    };
    let mut bytes = Vec::from_slice(alloc, file)?;
    for at in changed.split(' ') {
        let Ok(at) = at.parse() else {
            return Ok(false);
        };
        change(&mut bytes, at, 0);
    }
    match place_of(due) {
        Some(due) => Ok(broken_at(alloc, bytes)? == due),
        None => Ok(false),
    }
}

#[test]
fn several_changed_bytes_break_at_the_first_wrong_field(rt: HostRuntime) -> Result<(), Fail> {
    let part = part_of(rt.alloc(), FORTY)?;
    for row in CHANGED_TOGETHER.lines() {
        assert!(rt; breaks_together(rt.alloc(), part.image(), row)?, "{row}");
    }
    Ok(())
}
