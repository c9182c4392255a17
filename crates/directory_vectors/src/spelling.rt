//! Directories as the tables write them.
use chunk_store::{MemoryDisk, remake};
use std::alloc::Global;

/// Appends a text in which `⟨x×n⟩` is written out.
pub(crate) fn write_out(short: &str, into: &mut String) -> Option<()> {
    for part in short.split('⟨') {
        let (times, rest) = part.split_once('⟩').unwrap_or(("×0", part));
        let (piece, count) = times.split_once('×')?;
        for _ in 0..count.parse::<u32>().ok()? {
            into.push_str(piece).ok()?;
        }
        into.push_str(rest).ok()?;
    }
    Some(())
}

/// Makes a file of a disk: its number, `=` and its bytes.
fn put_file(alloc: Global, file: &str, disk: &mut MemoryDisk) -> Option<()> {
    let (number, digits) = file.split_once('=')?;
    let number = number.parse::<u32>().ok()?;
    let bytes = hex::decode(alloc, digits).ok()?;
    remake(disk, number, &bytes).ok()
}

/// Makes the files of a directory, with blanks between.
pub(crate) fn put_files(alloc: Global, files: &str, disk: &mut MemoryDisk) -> Option<()> {
    for file in files.split(' ') {
        put_file(alloc, file, disk)?;
    }
    Some(())
}
