//! Files that are written as bytes, and what is read of them.
use crate::bytes::{bytes_of, file_of, number_of};
use crate::careful_disk::CarefulDisk;
use crate::telling::{LOG, put_digits, put_end, put_entry, put_value};
use chunk_store::Disk;
use gate_log::{Before, GateLog, LogRead, read_front, read_records};
use std::alloc::Global;

/// Writes the first of these bytes to a file, at most so many. `-` is a file that isn't there.
pub(crate) fn write_file(
    alloc: Global,
    disk: &mut CarefulDisk,
    file: u32,
    most: u64,
    words: &str,
) -> Option<()> {
    if words == "-" {
        return Some(());
    }
    let bytes = bytes_of(alloc, words)?;
    let front = bytes.get(..most as usize).unwrap_or(&bytes);
    disk.write(file, 0, front).ok()
}

/// Writes the files of a row: that of a log, or the two slots of a root.
pub(crate) fn write_files(
    alloc: Global,
    disk: &mut CarefulDisk,
    what: &str,
    most: u64,
    row: &str,
) -> Option<()> {
    let mut file = if what == "log" { LOG } else { 0 };
    for words in row.split(" | ") {
        write_file(alloc, disk, file, most, words)?;
        file = file.saturating_add(1);
    }
    Some(())
}

/// What comes before the first record.
fn before_of(words: &str) -> Option<Before> {
    match words.split_once(' ') {
        Some(("record", number)) => Some(Before::Record(number_of(number)?)),
        Some((_, number)) => Some(Before::Chunks(number_of(number)?)),
        None => Some(Before::Anything),
    }
}

/// Puts each record as place:number:payload, and where the log ends or what is wrong there.
fn put_read(read: &LogRead, text: &mut String) -> Option<()> {
    for record in read.records.as_slice() {
        put_value(&record.place, text)?;
        text.push(':').ok()?;
        put_entry(record.number, record.payload, text)?;
    }
    match read.fault {
        Some(kind) => {
            put_value(&kind, text)?;
            text.push_str(" at ").ok()?;
            put_value(&read.end, text)
        }
        None => put_end(GateLog::behind(LOG, read.end, read.last).end(), text),
    }
}

/// Puts the records of bytes behind what comes before the first one.
pub(crate) fn put_records_read(alloc: Global, row: &str, text: &mut String) -> Option<()> {
    let (words, before) = row.split_once(" | ")?;
    let before = before_of(before)?;
    let bytes = bytes_of(alloc, words)?;
    put_read(&read_records(alloc, &bytes, before).ok()?, text)
}

/// Puts the first bytes of a file, at most so many. File 2 has six bytes.
pub(crate) fn put_front(
    alloc: Global,
    disk: &mut CarefulDisk,
    row: &str,
    text: &mut String,
) -> Option<()> {
    let (file, most) = row.split_once(' ')?;
    let (file, most) = (file_of(file)?, number_of(most)?);
    disk.write(LOG, 0, &[1, 2, 3, 4, 5, 6]).ok()?;
    match read_front(alloc, disk, file, most).ok()? {
        Some(bytes) => put_digits(&bytes, text),
        None => text.push('-').ok(),
    }
}
