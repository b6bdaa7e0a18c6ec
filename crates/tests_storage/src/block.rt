//! Blocks and their samples, which a few lines of Python gave by the format's description.
ghost use Rattle.std.specs.Prelude.{IfOk};
ghost use Rattle.vm_block.specs.Header.{IsHeader};

use crate::rows::{cells, numbers, placed, samples};
use std::alloc::{AllocError, Global};
use std::test::Fail;
use test_rows::bytes_of;
use vm_base::{List, Sample, Stamped};
use vm_block::{
    BlockFault, BlockHeader, are_one_block, cut, decode_block, encode_block, read_header,
    write_header,
};

/// The block of the values 1, 2, 4, 7 at 1000, 2000, 3000, 4000 ms.
pub(crate) const BLOCK: &str =
    r"\x00\x04\x02\x05\x00\x00\x00\x00\x00\x00\x00\x00\x00\x00\x03\xe8\x00\x00\x00\x00\x00\x00\x0f\xa0\x00\x00\x00\x00\x00\x00\x00\x01\x00\x00\x00\x02\x00\x00\x00\x03\xd0\x0f\x02\x02\x02";

/// One byte of `BLOCK` changed: the places of that byte from the first to the second, its values
/// from the third to the fourth by steps of the fifth, and what becomes of the bytes. All other
/// changes give a block.
const CHANGES: &str = r"0 0 1 31 1|Body 16
0 0 32 255 1|Header 0
1 1 0 0 1|Header 0
1 1 1 1 1|Body 40
1 1 2 3 1|Body 16
1 1 5 255 1|Body 16
2 2 0 1 1|Header 2
2 2 3 3 1|Body 40
2 2 4 4 1|Header 2
2 2 5 6 1|Body 42
2 2 7 255 1|Header 2
3 3 0 1 1|Header 3
3 3 2 2 1|Body 43
3 3 3 3 1|Body 42
3 3 4 4 1|Header 3
3 3 7 255 1|Header 3
4 4 2 254 1|Header 4
6 7 1 255 1|Header 6
8 9 1 255 1|Header 8
10 13 1 255 1|Header 16
14 14 0 14 2|Body 16
14 14 1 1 1|Body 16
14 14 5 13 2|Body 16
14 14 15 255 1|Header 16
15 15 0 231 1|Body 16
15 15 233 255 1|Body 16
16 17 1 255 1|Header 16
18 21 1 255 1|Body 16
22 22 0 3 1|Header 16
22 22 4 254 2|Body 16
22 22 5 13 2|Body 16
22 22 17 255 2|Body 16
23 23 0 159 1|Body 16
23 23 161 255 1|Body 16
24 24 14 242 1|Header 24
32 32 1 255 1|Header 32
33 33 1 1 1|Length
33 33 2 255 1|Header 32
34 34 1 255 1|Length
35 35 0 1 1|Length
35 35 3 255 1|Length
36 36 1 255 1|Header 36
37 37 1 1 1|Length
37 37 2 255 1|Header 36
38 38 1 255 1|Length
39 39 0 254 2|Length
39 39 1 1 1|Length
39 39 5 255 2|Length
40 40 0 127 1|Body 41
40 40 128 206 2|Body 16
40 40 129 255 2|Body 40
40 40 210 254 2|Body 16
41 41 0 0 1|Body 40
41 41 1 14 1|Body 16
41 41 16 127 1|Body 16
41 41 128 255 1|Body 40
42 43 128 255 1|Body 45
44 44 128 255 1|Body 44";

/// What is odd, the bytes, and what becomes of them.
const OTHERS: &str =
    r"values at one time fall|\x00\x02\x03\x02\x00\x00\x00\x00\x00\x00\x00\x00\x00\x00\x00\x07\x00\x00\x00\x00\x00\x00\x00\x07\x00\x00\x00\x00\x00\x00\x00\x02\x00\x00\x00\x00\x00\x00\x00\x01\x01|Body 24
equal values at one time|\x00\x02\x03\x03\x00\x00\x00\x00\x00\x00\x00\x00\x00\x00\x00\x07\x00\x00\x00\x00\x00\x00\x00\x07\x00\x00\x00\x00\x00\x00\x00\x02\x00\x00\x00\x00\x00\x00\x00\x00|Samples
a greater exponent would do|\x00\x01\x03\x03\x00\x00\x00\x00\x00\x00\x00\x00\x00\x00\x00\x07\x00\x00\x00\x00\x00\x00\x00\x07\x00\x00\x00\x00\x00\x00\x00\x0a\x00\x00\x00\x00\x00\x00\x00\x00|Body 4
zero has the exponent 0|\x00\x01\x03\x03\xff\xff\x00\x00\x00\x00\x00\x00\x00\x00\x00\x07\x00\x00\x00\x00\x00\x00\x00\x07\x00\x00\x00\x00\x00\x00\x00\x00\x00\x00\x00\x00\x00\x00\x00\x00|Body 4
10 * 10^350 is no sample|\x00\x01\x03\x03\x01\x5e\x00\x00\x00\x00\x00\x00\x00\x00\x00\x07\x00\x00\x00\x00\x00\x00\x00\x07\x00\x00\x00\x00\x00\x00\x00\x0a\x00\x00\x00\x00\x00\x00\x00\x00|Body 4
one time in another coding|\x00\x01\x02\x03\x00\x00\x00\x00\x00\x00\x00\x00\x00\x00\x00\x07\x00\x00\x00\x00\x00\x00\x00\x07\x00\x00\x00\x00\x00\x00\x00\x01\x00\x00\x00\x01\x00\x00\x00\x00\x02|Body 40
times fall|\x00\x02\x02\x03\x00\x00\x00\x00\x00\x00\x00\x00\x00\x00\x00\x07\x00\x00\x00\x00\x00\x00\x00\x08\x00\x00\x00\x00\x00\x00\x00\x01\x00\x00\x00\x01\x00\x00\x00\x00\x01|Body 40
a time below 0|\x00\x02\x02\x03\x00\x00\x00\x00\x00\x00\x00\x00\x00\x00\x00\x00\x00\x00\x00\x00\x00\x00\x00\x00\x00\x00\x00\x00\x00\x00\x00\x01\x00\x00\x00\x01\x00\x00\x00\x00\x01|Body 40
a time of 2^48|\x00\x02\x02\x03\x00\x00\x00\x00\x00\x00\xff\xff\xff\xff\xff\xff\x00\x00\xff\xff\xff\xff\xff\xff\x00\x00\x00\x00\x00\x00\x00\x01\x00\x00\x00\x01\x00\x00\x00\x00\x02|Body 40
a byte behind the times|\x00\x01\x03\x03\x00\x00\x00\x00\x00\x00\x00\x00\x00\x00\x00\x07\x00\x00\x00\x00\x00\x00\x00\x07\x00\x00\x00\x00\x00\x00\x00\x01\x00\x00\x00\x01\x00\x00\x00\x00\x00|Body 40
a byte behind the mantissas|\x00\x02\x02\x02\x00\x00\x00\x00\x00\x00\x00\x00\x00\x00\x00\x07\x00\x00\x00\x00\x00\x00\x00\x08\x00\x00\x00\x00\x00\x00\x00\x01\x00\x00\x00\x01\x00\x00\x00\x02\x02\x02\x02|Body 42";

/// Samples, each a time, a mantissa and an exponent of ten, and the bytes of their block.
const BLOCKS: &str =
    r"1000 1 0, 2000 2 0, 3000 4 0, 4000 7 0|\x00\x04\x02\x05\x00\x00\x00\x00\x00\x00\x00\x00\x00\x00\x03\xe8\x00\x00\x00\x00\x00\x00\x0f\xa0\x00\x00\x00\x00\x00\x00\x00\x01\x00\x00\x00\x02\x00\x00\x00\x03\xd0\x0f\x02\x02\x02
0 0 0|\x00\x01\x03\x03\x00\x00\x00\x00\x00\x00\x00\x00\x00\x00\x00\x00\x00\x00\x00\x00\x00\x00\x00\x00\x00\x00\x00\x00\x00\x00\x00\x00\x00\x00\x00\x00\x00\x00\x00\x00
281474976710655 -999999999999999999 350|\x00\x01\x03\x03\x01\x5e\x00\x00\x00\x00\xff\xff\xff\xff\xff\xff\x00\x00\xff\xff\xff\xff\xff\xff\xf2\x1f\x49\x4c\x58\x9c\x00\x01\x00\x00\x00\x00\x00\x00\x00\x00
0 1 -350, 281474976710655 999999999999999999 -350|\x00\x02\x02\x02\xfe\xa2\x00\x00\x00\x00\x00\x00\x00\x00\x00\x00\x00\x00\xff\xff\xff\xff\xff\xff\x00\x00\x00\x00\x00\x00\x00\x01\x00\x00\x00\x07\x00\x00\x00\x09\xfe\xff\xff\xff\xff\xff\x7f\xfc\xff\x9f\xf6\xf4\xac\xdb\xe0\x1b
5 15 -1, 5 2 1, 5 2 1, 9 0 0|\x00\x04\x05\x06\xff\xff\x00\x00\x00\x00\x00\x00\x00\x00\x00\x05\x00\x00\x00\x00\x00\x00\x00\x09\x00\x00\x00\x00\x00\x00\x00\x0f\x00\x00\x00\x03\x00\x00\x00\x05\x00\x00\x08\xf2\x02\x00\x8f\x03
60000 1 0, 120000 5 0|\x00\x02\x02\x02\x00\x00\x00\x00\x00\x00\x00\x00\x00\x00\xea\x60\x00\x00\x00\x00\x00\x01\xd4\xc0\x00\x00\x00\x00\x00\x00\x00\x01\x00\x00\x00\x03\x00\x00\x00\x01\xc0\xa9\x07\x08";

/// What becomes of bytes that are read as one block: the first letter of its word in a row, and a
/// place where it has one.
///
/// `Header`: the header breaks at this place. `Length`: the columns aren't as long as it says.
/// `Body`: the body breaks the block at this place. `Samples`: it is a block. Else, in no row, the
/// header is written otherwise than it was read, or memory ran out.
type Outcome = (u8, u64);

/// The header of a block, or why there is none.
pub(crate) fn header_of(bytes: &[u8]) -> Result<BlockHeader, Outcome>
    ensures { IfOk result IsHeader }
{
    if bytes.len() < 40 {
        return Err((b'L', 0));
    }
    let mut front = [0; 40];
    front.copy_from_slice(&bytes[..40]);
    let header = match read_header(&front) {
        Ok(header) => header,
        Err(broken) => return Err((b'H', broken.at)),
    };
    let mut written = [0; 40];
    write_header(&header, &mut written);
    if written != front {
        return Err((b'R', 0));
    }
    Ok(header)
}

/// The samples of a block, or why there are none.
fn samples_of(alloc: Global, bytes: &[u8]) -> Result<List<Stamped>, Outcome> {
    let header = header_of(bytes)?;
    let Some(body) = bytes.get(40..) else {
        return Err((b'L', 0));
    };
    if body.len() != header.times_len as usize + header.values_len as usize {
        return Err((b'L', 0));
    }
    match decode_block(alloc, &header, body) {
        Ok(samples) => Ok(samples),
        Err(BlockFault::Broken { at }) => Err((b'B', at)),
        Err(BlockFault::Memory) => Err((b'N', 0)),
    }
}

/// What becomes of bytes that are read as one block.
fn outcome(alloc: Global, bytes: &[u8]) -> Outcome {
    match samples_of(alloc, bytes) {
        Ok(_) => (b'S', 0),
        Err(outcome) => outcome,
    }
}

/// Changes of one byte, and what becomes of the bytes then.
type Change = ([u64; 5], Outcome);

fn change_of(row: &str) -> Option<Change> {
    let (change, due) = row.split_once('|')?;
    let change = numbers(change)?;
    Some((change, placed(due)?))
}

/// The rows of `CHANGES`, none where one can't be read.
fn changes(alloc: Global) -> Result<Option<Vec<Change>>, AllocError> {
    let mut all = Vec::new(alloc);
    for row in CHANGES.lines() {
        let Some(change) = change_of(row) else {
            return Ok(None);
        };
        all.push(change)?;
    }
    Ok(Some(all))
}

/// What becomes of `BLOCK` with this value at a place.
fn changed_outcome(changes: &[Change], place: u64, value: u64) -> Outcome {
    for row in changes {
        let (change, outcome) = *row;
        let [from, to, least, most, step] = change;
        if from <= place && place <= to && least <= value && value <= most {
            if (value - least).checked_rem(step) == Some(0) {
                return outcome;
            }
        }
    }
    (b'S', 0)
}

/// What becomes of a block with this value at a place.
fn outcome_with(
    alloc: Global,
    block: &[u8],
    place: usize,
    value: u8,
) -> Result<Outcome, AllocError> {
    let mut bytes = Vec::from_slice(alloc, block)?;
    if let Some(byte) = bytes.get_mut(place) {
        *byte = value;
    }
    Ok(outcome(alloc, &bytes))
}

#[test]
fn each_changed_byte_breaks_its_field(rt: HostRuntime) -> Result<(), Fail> {
    let block = bytes_of(rt.alloc(), BLOCK)?;
    let changes = changes(rt.alloc())?.ok_or("a row can't be read")?;
    assert_eq!(rt; block.len(), 45);
    for place in 0..45usize {
        for value in 0..=255u8 {
            let due = changed_outcome(&changes, place as u64, u64::from(value));
            assert!(rt;
                outcome_with(rt.alloc(), &block, place, value)? == due,
                "{place} {value}"
            );
        }
    }
    Ok(())
}

/// Whether the bytes of a row become what it says.
fn is_other(alloc: Global, row: &str) -> Result<bool, AllocError> {
    let Some((_, bytes, due)) = cells(row) else {
        return Ok(false);
    };
    let bytes = bytes_of(alloc, bytes)?;
    Ok(placed(due) == Some(outcome(alloc, &bytes)))
}

#[test]
fn other_blocks_break(rt: HostRuntime) -> Result<(), Fail> {
    for row in OTHERS.lines() {
        assert!(rt; is_other(rt.alloc(), row)?, "{row}");
    }
    Ok(())
}

/// The bytes of the block of these samples, none where they are no block or are read as others.
fn block_of(alloc: Global, samples: &[Stamped]) -> Result<Option<List<u8>>, AllocError> {
    if !are_one_block(samples) {
        return Ok(None);
    }
    let bytes = encode_block(alloc, samples)?;
    match samples_of(alloc, bytes.as_slice()) {
        Ok(again) if again.as_slice() == samples => Ok(Some(bytes)),
        _ => Ok(None),
    }
}

fn is_block(alloc: Global, row: &str) -> Result<bool, AllocError> {
    let Some((given, due)) = row.split_once('|') else {
        return Ok(false);
    };
    let samples = samples(alloc, given)?;
    match block_of(alloc, &samples)? {
        Some(bytes) => Ok(bytes.as_slice() == bytes_of(alloc, due)?.as_slice()),
        None => Ok(false),
    }
}

#[test]
fn blocks_are_written_and_read(rt: HostRuntime) -> Result<(), Fail> {
    for row in BLOCKS.lines() {
        assert!(rt; is_block(rt.alloc(), row)?, "{row}");
    }
    Ok(())
}

/// Whether a block has so many samples and these two codings.
fn is_cut(alloc: Global, block: &[Stamped], due: &str) -> Result<bool, AllocError> {
    let Some(due) = numbers::<3>(due) else {
        return Ok(false);
    };
    let Some(bytes) = block_of(alloc, block)? else {
        return Ok(false);
    };
    match bytes.as_slice() {
        [_, _, times, values, ..] => {
            Ok(due == [block.len() as u64, u64::from(*times), u64::from(*values)])
        }
        _ => Ok(false),
    }
}

/// Whether samples are cut into these blocks, with a comma between two: of each how many samples it
/// has and its two codings.
fn are_cut(alloc: Global, samples: &[Stamped], due: &str) -> Result<bool, AllocError> {
    let blocks = cut(alloc, samples)?;
    let mut due = due.split(", ");
    for block in blocks.as_slice() {
        let Some(due) = due.next() else {
            return Ok(false);
        };
        if !is_cut(alloc, block.as_slice(), due)? {
            return Ok(false);
        }
    }
    Ok(due.next().is_none())
}

/// 8,193 samples of 7, one a second.
fn sevens(alloc: Global) -> Result<Vec<Stamped>, AllocError> {
    let mut sevens = Vec::new(alloc);
    let value = Sample::of(7, 0).unwrap_or(Sample::ZERO);
    for second in 0..8_193u64 {
        sevens.push(Stamped {
            time: second * 1_000,
            value,
        })?;
    }
    Ok(sevens)
}

/// A block ends where a mantissa would have more than 18 digits, and after 8,192 samples. The
/// codings are those of one time or of times that rise evenly, and of one value or of two.
#[test]
fn samples_are_cut_where_they_must(rt: HostRuntime) -> Result<(), Fail> {
    let alloc = rt.alloc();
    let digits = samples(alloc, "1 100000000000000001 0, 2 1 -1, 3 2 0")?;
    assert!(rt; are_cut(alloc, &digits, "1 3 3, 2 2 2")?);
    assert!(rt; are_cut(alloc, &sevens(alloc)?, "8192 2 3, 1 3 3")?);
    Ok(())
}
