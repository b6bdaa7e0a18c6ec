//! What the objects of `vm_outside` do: bytes in pieces, calls that fail, and what a crash may
//! leave of a disk in memory.
//!
//! The expected values were worked out by hand.
use std::alloc::{AllocError, Global};
use vm_outside::{
    Clock, Disk, Failed, Link, MemClock, MemDisk, MemSink, MemSource, NoDisk, NoLink, NoPatterns,
    PatternFault, Patterns, Sink, Source, Unsynced, read_all, write_all, write_and_sync,
};

/// How many bytes a call moves at most and which calls fail, of a source of `abcdef` or a sink, and
/// what comes of it:
///
/// - `source`: what six reads of up to four bytes gave, `|` for each that failed, and `.` for each
///   that gave nothing;
/// - `sink`: what the sink took of `abcdef` by `write_all`, and `|` where that failed.
const STREAMS: &str = "\
source 18446744073709551615 9,9 -> abcdef....
source 2 9,9 -> abcdef...
source 2 0,2 -> |ab|cdef.
source 1 1,9 -> a|bcde
source 18446744073709551615 3,2 -> abcdef||..
sink 18446744073709551615 9 -> abcdef
sink 4 9 -> abcdef
sink 4 1 -> abcd|
sink 1 0 -> |
sink 2 3 -> abcdef
";

/// What is done with a disk and what comes of it, row after row. A row `disk` begins anew: with
/// `abcdef` in file 1, `xy` in file 2, and these calls failing.
///
/// A row names a file, then a place in it, then bytes. `save` writes and syncs, `read` is of up to
/// two bytes, and `all` reads a whole file. `left` says of contents what a crash after so many
/// calls may leave of the file: `+` for each that it may, `-` for each that it may not.
///
/// On the first disk a write within the file is torn: until a sync that is done there may be any
/// bytes in its range, and the synced ones elsewhere. A failed sync changes nothing. On the second
/// one a write over the end fails, and the file is dropped: the length may be any between the
/// synced one and the greatest since. On the third one files are written, read and measured. What
/// has no bytes is `empty`.
const DISKS: &str = "\
disk 2 -> ready
write 1 2 XY -> done
bytes 1 -> abXYef
sync 2 -> done
sync 1 -> failed
sync 1 -> done
left 1 0 abcdef,abXYef,abXdef,ab?!ef,aXcdef,abXYe,abXYefg -> +------
left 1 1 abcdef,abXYef,abXdef,ab?!ef,aXcdef,abXYe,abXYefg -> ++++---
left 1 2 abcdef,abXYef,abXdef,ab?!ef,aXcdef,abXYe,abXYefg -> ++++---
left 1 3 abcdef,abXYef,abXdef,ab?!ef,aXcdef,abXYe,abXYefg -> ++++---
left 1 4 abcdef,abXYef,abXdef,ab?!ef,aXcdef,abXYe,abXYefg -> -+-----
disk 0 -> ready
write 1 5 123 -> failed
bytes 1 -> abcdef
drop 1 -> done
bytes 1 -> empty
sync 1 -> done
left 1 0 abcdef,abcde1,abcdef2,abcde123,abcde,,zz,abcde1234 -> +-------
left 1 1 abcdef,abcde1,abcdef2,abcde123,abcde,,zz,abcde1234 -> ++++----
left 1 2 abcdef,abcde1,abcdef2,abcde123,abcde,,zz,abcde1234 -> +++++++-
left 1 3 abcdef,abcde1,abcdef2,abcde123,abcde,,zz,abcde1234 -> -----+--
bytes 2 -> xy
disk 4,6 -> ready
save 3 0 123 -> done
len 3 -> 3
read 3 1 -> 23
read 3 1 -> failed
read 3 3 -> empty
len 9 -> failed
len 9 -> 0
all 3 -> 123
calls -> 11
";

/// Numbers between commas.
fn numbers(alloc: Global, text: &str) -> Result<Option<Vec<u64>>, AllocError> {
    let mut numbers = Vec::new(alloc);
    for word in text.split(',') {
        match word.parse() {
            Ok(number) => numbers.push(number)?,
            Err(_) => return Ok(None),
        }
    }
    Ok(Some(numbers))
}

/// Whether a row of `STREAMS` is right.
fn is_stream(alloc: Global, row: &str) -> Result<bool, AllocError> {
    let Some((given, due)) = row.split_once(" -> ") else {
        return Ok(false);
    };
    let mut words = given.split(' ');
    let word = words.next().unwrap_or("");
    let most = words.next().unwrap_or("").parse().unwrap_or(0);
    let failing = numbers(alloc, words.next().unwrap_or(""))?;
    let Some(failing) = failing else {
        return Ok(false);
    };
    if most == 0 {
        return Ok(false);
    }
    match word {
        "source" => {
            let bytes = Vec::from_slice(alloc, b"abcdef")?;
            let mut source = MemSource::in_pieces(bytes, most, failing);
            Ok(given_by(alloc, &mut source)?.as_slice() == due.as_bytes())
        }
        "sink" => Ok(is_taken(&mut MemSink::in_pieces(alloc, most, failing), due)),
        _ => Ok(false),
    }
}

/// What six calls of `read` gave.
fn given_by<S: Source>(alloc: Global, source: &mut S) -> Result<Vec<u8>, AllocError> {
    let mut told = Vec::new(alloc);
    let mut piece = [0u8; 4];
    for _ in 0..6 {
        match source.read(&mut piece) {
            Ok(0) => told.push(b'.')?,
            Ok(n) => told.extend_from_slice(&piece[..n])?,
            Err(Failed) => told.push(b'|')?,
        }
    }
    Ok(told)
}

/// Whether this is what a sink takes of `abcdef`.
fn is_taken(sink: &mut MemSink, due: &str) -> bool {
    let due = match write_all(sink, b"abcdef") {
        Ok(()) => due,
        Err(Failed) => due.strip_suffix("|").unwrap_or("no failure"),
    };
    sink.bytes() == due.as_bytes()
}

/// The bytes come in order whatever the pieces are, and a call that fails loses none. `write_all`
/// goes on until all is taken, and stops at the first call that fails.
#[test]
fn streams(rt: HostRuntime) -> Result<(), AllocError> {
    for row in STREAMS.lines() {
        assert!(rt; is_stream(rt.alloc(), row)?, "{row}");
    }
    Ok(())
}

/// The variants without a list.
#[test]
fn steady_ones(rt: HostRuntime) -> Result<(), AllocError> {
    let alloc = rt.alloc();
    let mut source = MemSource::steady(alloc, Vec::from_array(alloc, *b"ab")?);
    assert!(rt; given_by(alloc, &mut source)?.as_slice() == b"ab.....".as_slice());
    let mut sink = MemSink::steady(alloc);
    assert!(rt; sink.write(b"ab") == Ok(2));
    assert!(rt; sink.bytes() == b"ab".as_slice());
    Ok(())
}

/// The last answer of a clock repeats.
#[test]
fn clocks(rt: HostRuntime) -> Result<(), AllocError> {
    let mut clock = MemClock::new(Vec::from_array(rt.alloc(), [5, 7, 6])?);
    for due in [5, 7, 6, 6, 6] {
        assert!(rt; clock.now_ms() == due);
    }
    Ok(())
}

/// Where nothing of the kind is at hand, each call says so and is counted.
#[test]
fn without_any(rt: HostRuntime) {
    let mut link = NoLink::new();
    assert_eq!(rt; link.next(), Ok(false));
    let mut disk = NoDisk::new();
    assert_eq!(rt; disk.len(1), Err(Failed));
    assert_eq!(rt; disk.write(1, 0, b"ab"), Err(Failed));
    assert_eq!(rt; disk.sync(1), Err(Failed));
    assert_eq!(rt; (disk.read_faults, disk.write_faults), (1, 2));
    let mut patterns = NoPatterns::new();
    assert!(rt; matches!(patterns.build("up"), Err(PatternFault::Refused)));
    assert_eq!(rt; patterns.refusals, 1);
}

/// The disk that a row `disk` begins with. None where its numbers can't be read.
fn disk_of(alloc: Global, failing: &str) -> Result<Option<MemDisk>, AllocError> {
    let Some(failing) = numbers(alloc, failing)? else {
        return Ok(None);
    };
    let disk = MemDisk::new(alloc, failing)
        .holding(1, b"abcdef")?
        .holding(2, b"xy")?;
    Ok(Some(disk))
}

/// Whether a row of `DISKS` is right.
fn is_step(alloc: Global, disk: &mut MemDisk, row: &str) -> Result<bool, AllocError> {
    let Some((given, due)) = row.split_once(" -> ") else {
        return Ok(false);
    };
    let mut words = given.split(' ');
    let word = words.next().unwrap_or("");
    let file = words.next().unwrap_or("0");
    let at = words.next().unwrap_or("0").parse();
    let bytes = words.next().unwrap_or("");
    if word == "disk" {
        return match disk_of(alloc, file)? {
            Some(begun) => {
                *disk = begun;
                Ok(due == "ready")
            }
            None => Ok(false),
        };
    }
    let (Ok(file), Ok(at)) = (file.parse(), at) else {
        return Ok(false);
    };
    let told = match word {
        "write" | "save" | "sync" | "drop" => {
            let done = changed(disk, word, file, at, bytes.as_bytes());
            return Ok(due == if done { "done" } else { "failed" });
        }
        "left" => match unsynced(disk, at, file)? {
            Some(file) => left(alloc, &file, bytes)?,
            None => return Ok(false),
        },
        _ => asked(alloc, disk, word, file, at)?,
    };
    Ok(told.as_slice() == due.as_bytes() || (told.is_empty() && due == "empty"))
}

/// Whether a change is done. A place that isn't in the file, or far off, is none.
fn changed(disk: &mut MemDisk, word: &str, file: u64, at: u64, bytes: &[u8]) -> bool {
    if at > disk.bytes(file).len() as u64 || at > 100 || bytes.len() > 100 {
        return false;
    }
    let done = match word {
        "write" => disk.write(file, at, bytes),
        "save" => write_and_sync(disk, file, at, bytes),
        "sync" => disk.sync(file),
        _ => disk.drop_file(file),
    };
    done == Ok(())
}

/// What a question is answered.
fn asked(
    alloc: Global,
    disk: &mut MemDisk,
    word: &str,
    file: u64,
    at: u64,
) -> Result<Vec<u8>, AllocError> {
    let mut into = [0u8; 2];
    let told = match word {
        "bytes" => return Vec::from_slice(alloc, disk.bytes(file)),
        "read" => match disk.read(file, at, &mut into) {
            Ok(n) => return Vec::from_slice(alloc, &into[..n]),
            Err(Failed) => Err(Failed),
        },
        "all" => match read_all(alloc, disk, file) {
            Ok(bytes) => return Ok(bytes),
            Err(_) => Err(Failed),
        },
        "len" => disk.len(file),
        "calls" => Ok(disk.calls().len() as u64),
        _ => Err(Failed),
    };
    match told {
        Ok(number) => Ok(format!(in alloc; "{number}")?.into_bytes()),
        Err(Failed) => Vec::from_slice(alloc, b"failed"),
    }
}

/// What a crash after so many calls may leave of a file.
fn unsynced(disk: &MemDisk, calls: u64, file: u64) -> Result<Option<Unsynced>, AllocError> {
    if calls > disk.calls().len() as u64 {
        return Ok(None);
    }
    Ok(Some(disk.unsynced(calls as usize, file)?))
}

/// Which of these contents a crash may leave.
fn left(alloc: Global, file: &Unsynced, contents: &str) -> Result<Vec<u8>, AllocError> {
    let mut told = Vec::new(alloc);
    for content in contents.split(',') {
        told.push(if file.may_leave(content.as_bytes()) {
            b'+'
        } else {
            b'-'
        })?;
    }
    Ok(told)
}

/// Each row comes to what is due, one after the other.
#[test]
fn disks(rt: HostRuntime) -> Result<(), AllocError> {
    let mut disk = MemDisk::steady(rt.alloc());
    for row in DISKS.lines() {
        assert!(rt; is_step(rt.alloc(), &mut disk, row)?, "{row}");
    }
    Ok(())
}
