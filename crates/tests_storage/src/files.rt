//! Parts in files.
//!
//! The places come from a reader of parts in Python that was written from the description of the
//! format alone.
ghost use Rattle.vm_part.specs.Files.{HasWritten};

use crate::part::{part_of, up};
use crate::rows::numbers;
use std::alloc::{AllocError, Global};
use std::rc::Rc;
use std::test::Fail;
use vm_outside::{Disk, MemDisk};
use vm_part::{MemPart, PartReader, PartWriter, Writing, open_part};

/// A file and how long it should be, and what is opened, or why none is, as a fault is printed:
/// calls that fail, one byte too few and too many, too few for any part, and a file that isn't
/// there. File 7 is the part of `up 1 900`.
const FILES: &str = "\
7 194|file 7 with 1 row, 1 series of up
7 194|disk fault
7 194|disk fault
7 195|file 7 is damaged at byte 147
7 193|file 7 is damaged at byte 145
7 55|file 7 is damaged at byte 0
8 194|file 8 is damaged at byte 0";

/// Writes a part, with up to a hundred steps, whichever of them fail.
fn write_out(disk: &mut MemDisk, writer: PartWriter) -> Option<PartReader>
    requires { HasWritten writer (⟦<MemDisk as Disk>⟧.state disk.old).reads }
{
    let mut writer = writer;
    for _step in 0..100 {
        match writer.finish_step(disk) {
            Ok(Writing::Synced) => return Some(writer.into_reader()),
            Ok(Writing::More) | Err(_) => {}
        }
    }
    None
}

/// The lines of a part of 400 KB: 50 series whose label has more than 4,000 bytes.
fn long_lines(alloc: Global) -> Result<String, AllocError> {
    let mut value = String::new(alloc);
    for _byte in 0..4000 {
        value.push('x')?;
    }
    let mut lines = String::new(alloc);
    for n in 0..50u64 {
        let line = format!(in alloc; "up{{i=\"{value}{n}\"}} 1 {n}\n")?;
        lines.push_str(line.as_str())?;
    }
    Ok(lines)
}

/// Writes a part into file 7 of a disk whose calls 0, 2 and 5 fail, two writes and the first sync,
/// and whether it is there then and a crash leaves it.
fn is_written(alloc: Global, part: &Rc<MemPart>) -> Result<bool, AllocError> {
    let mut disk = MemDisk::new(alloc, Vec::from_array(alloc, [0, 2, 5])?);
    let Ok(writer) = PartWriter::begin_image(7, part.clone()?) else {
        return Ok(false);
    };
    let len = writer.len();
    let Some(reader) = write_out(&mut disk, writer) else {
        return Ok(false);
    };
    if disk.calls().len() != 7 {
        return Ok(false);
    }
    let left = disk.unsynced(7, 7)?;
    Ok(
        left.may_leave(part.image())
            && !left.may_leave(&[])
            && disk.bytes(7) == part.image()
            && len == part.image().len() as u64
            && reader.file() == 7
            && reader.rows() == 50,
    )
}

#[test]
fn a_part_is_written_by_steps(rt: HostRuntime) -> Result<(), Fail> {
    let lines = long_lines(rt.alloc())?;
    let part = part_of(rt.alloc(), lines.as_str())?;
    assert!(rt; is_written(rt.alloc(), &part)?);
    Ok(())
}

/// A disk whose file 7 is the part of `up`, and whose calls 2 and 4 fail.
fn disk_of_up(alloc: Global) -> Result<MemDisk, AllocError> {
    let bytes = up(alloc)?;
    MemDisk::new(alloc, Vec::from_array(alloc, [2, 4])?).holding(7, &bytes)
}

/// What a file is opened as, or why it isn't.
fn opened(alloc: Global, disk: &mut MemDisk, file: u64, len: u64) -> Result<String, AllocError> {
    match open_part(alloc, disk, file, len) {
        Ok(reader) => {
            let series = reader.index().lookup("__name__", "up").len();
            format!(in alloc;
                "file {} with {} row, {series} series of up",
                reader.file(),
                reader.rows()
            )
        }
        Err(fault) => format!(in alloc; "{fault}"),
    }
}

fn is_right(alloc: Global, disk: &mut MemDisk, row: &str) -> Result<bool, AllocError> {
    let Some((given, due)) = row.split_once('|') else {
        return Ok(false);
    };
    let Some(given) = numbers::<2>(given) else {
        return Ok(false);
    };
    let [file, len] = given;
    Ok(opened(alloc, disk, file, len)?.as_str() == due)
}

#[test]
fn a_file_is_opened_or_damaged(rt: HostRuntime) -> Result<(), Fail> {
    let mut disk = disk_of_up(rt.alloc())?;
    for row in FILES.lines() {
        assert!(rt; is_right(rt.alloc(), &mut disk, row)?, "{row}");
    }
    Ok(())
}
