//! What is read of a disk, as a text.
use crate::careful_disk::CarefulDisk;
use chunk_store::{Disk, MemoryDisk, read_whole};
use gate_log::{GateLog, LogRecord};
use root_slots::{ChunkEntry, Root, RootState};
use std::alloc::Global;
use std::fmt::Display;

/// The file of each log.
pub(crate) const LOG: u32 = 2;

/// Puts a value as it is shown. All that is shown goes through here, or through [`put_number`], since a formatted text is dear to
/// prove.
pub(crate) fn put_value<T: Display>(value: &T, text: &mut String) -> Option<()> {
    write!(text, "{value}").ok()
}

/// Puts a number.
pub(crate) fn put_number(number: u64, text: &mut String) -> Option<()> {
    write!(text, "{number}").ok()
}

/// Puts a number, and a space behind it.
fn put_spaced(number: u64, text: &mut String) -> Option<()> {
    put_number(number, text)?;
    text.push(' ').ok()
}

/// Puts a word with its number.
fn put_named(word: &str, number: u64, text: &mut String) -> Option<()> {
    text.push_str(word).ok()?;
    text.push(' ').ok()?;
    put_spaced(number, text)
}

/// Puts each of these words with its number.
fn put_numbers(words: &str, numbers: &[u64], text: &mut String) -> Option<()> {
    for (word, number) in words.split(' ').zip(numbers) {
        put_named(word, *number, text)?;
    }
    Some(())
}

/// Puts the digits of some bytes.
fn put_all_digits(bytes: &[u8], text: &mut String) -> Option<()> {
    for byte in bytes {
        write!(text, "{byte:02x}").ok()?;
    }
    Some(())
}

/// Puts the digits of some bytes; of more than a hundred, those of the first 13, and how many more there are.
pub(crate) fn put_digits(bytes: &[u8], text: &mut String) -> Option<()> {
    match bytes.split_at_checked(13) {
        Some((front, rest)) if bytes.len() > 100 => {
            put_all_digits(front, text)?;
            text.push('+').ok()?;
            put_number(rest.len() as u64, text)
        }
        _ => put_all_digits(bytes, text),
    }
}

/// Puts the digits of a file, or `-` where it isn't there.
pub(crate) fn put_file(
    alloc: Global,
    disk: &mut CarefulDisk,
    file: u32,
    text: &mut String,
) -> Option<()> {
    match read_whole(alloc, disk, file).ok()? {
        Some(bytes) => put_digits(&bytes, text),
        None => text.push('-').ok(),
    }
}

/// Puts the files 0 and 1 of a disk.
fn put_two(alloc: Global, disk: &mut CarefulDisk, text: &mut String) -> Option<()> {
    put_file(alloc, disk, 0, text)?;
    text.push(',').ok()?;
    put_file(alloc, disk, 1, text)
}

/// Puts the files 0 and 1 of what a crash now leaves of a disk.
fn put_left(alloc: Global, disk: &mut CarefulDisk, text: &mut String) -> Option<()> {
    let mut left = CarefulDisk {
        below: disk.below.after_crash(disk.below.calls(), 2).ok()?,
    };
    put_two(alloc, &mut left, text)
}

/// Puts a record as number:payload.
pub(crate) fn put_entry(number: u64, payload: &[u8], text: &mut String) -> Option<()> {
    put_number(number, text)?;
    text.push(':').ok()?;
    put_digits(payload, text)?;
    text.push(' ').ok()
}

/// Puts where a log ends.
pub(crate) fn put_end(end: u64, text: &mut String) -> Option<()> {
    text.push_str("to ").ok()?;
    put_number(end, text)
}

/// Puts the records of a log, and where it ends.
fn put_records(records: &[LogRecord], end: u64, text: &mut String) -> Option<()> {
    for record in records {
        put_entry(record.number, record.payload.as_slice(), text)?;
    }
    put_end(end, text)
}

/// Puts the records of a log and where it ends, or why it isn't read.
pub(crate) fn put_log<D: Disk>(alloc: Global, disk: &mut D, text: &mut String) -> Option<()> {
    match GateLog::read(alloc, disk, LOG) {
        Ok((log, records)) => put_records(&records, log.end(), text),
        Err(fault) => put_value(&fault, text),
    }
}

/// Puts a chunk, and each of its rows that don't count.
fn put_chunk(chunk: &ChunkEntry, text: &mut String) -> Option<()> {
    let (file, length) = (u64::from(chunk.file), u64::from(chunk.length));
    put_numbers("chunk length", &[file, length], text)?;
    for row in chunk.dead.as_slice() {
        put_numbers("dead", &[u64::from(*row)], text)?;
    }
    Some(())
}

/// Puts the numbers of a state, how long its schema's text is, and its chunks.
fn put_fields(state: &RootState, text: &mut String) -> Option<()> {
    let logs = (u64::from(state.older), u64::from(state.newer));
    let schema = state.schema_text.as_bytes().len() as u64;
    let numbers = [
        state.through,
        u64::from(state.next_file),
        logs.0,
        logs.1,
        schema,
    ];
    put_numbers("through next older newer text", &numbers, text)?;
    for chunk in state.chunks.as_slice() {
        put_chunk(chunk, text)?;
    }
    Some(())
}

/// Whether a state differs from others in the commit alone that it goes through.
fn is_plain(state: &RootState) -> bool {
    let is_empty = state.schema_text.as_bytes().is_empty() && state.chunks.as_slice().is_empty();
    is_empty && state.next_file == 3 && state.older == 0 && state.newer == 2
}

/// Puts a state, and whether the root is full. A plain state is told by the commit that it goes through.
fn put_state(state: &RootState, is_full: bool, text: &mut String) -> Option<()> {
    if is_plain(state) {
        put_number(state.through, text)?;
    } else {
        put_fields(state, text)?;
    }
    text.push_str(if is_full { "full" } else { "" }).ok()
}

/// Puts what a root is read as: its state, or that there is none, or why it isn't read.
fn put_root(alloc: Global, disk: &mut CarefulDisk, text: &mut String) -> Option<()> {
    match Root::read(alloc, disk) {
        Ok((root, Some(state))) => put_state(&state, root.full(), text),
        Ok((_, None)) => text.push_str("none").ok(),
        Err(fault) => put_value(&fault, text),
    }
}

/// Puts what is read of a disk: of its log, of its root, of its files 0 and 1, or of these after one more crash.
pub(crate) fn put_what(
    alloc: Global,
    disk: &mut CarefulDisk,
    what: &str,
    text: &mut String,
) -> Option<()> {
    match what {
        "log" => put_log(alloc, disk, text),
        "root" => put_root(alloc, disk, text),
        "files" => put_two(alloc, disk, text),
        _ => put_left(alloc, disk, text),
    }
}

/// Puts what is read of what this crash after so many calls leaves.
pub(crate) fn put_crash(
    alloc: Global,
    disk: &MemoryDisk,
    (calls, pick): (u64, u8),
    what: &str,
    text: &mut String,
) -> Option<()> {
    let mut left = CarefulDisk {
        below: disk.after_crash(calls, pick).ok()?,
    };
    put_what(alloc, &mut left, what, text)
}

/// Puts what is read after each of the four crashes after so many calls: what wasn't synced is as never done, as written, all 1,
/// all 255. A bar stands before each.
pub(crate) fn put_crashes(
    alloc: Global,
    disk: &MemoryDisk,
    calls: u64,
    what: &str,
    text: &mut String,
) -> Option<()> {
    for pick in 0..4 {
        text.push_str(" | ").ok()?;
        put_crash(alloc, disk, (calls, pick), what, text)?;
    }
    Some(())
}
