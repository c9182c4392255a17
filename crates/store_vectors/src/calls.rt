//! Calls on a disk in memory that are written as a text.
use crate::bytes::{bytes_of, call_of};
use crate::careful_disk::CarefulDisk;
use chunk_store::Disk;
use std::alloc::Global;

/// Makes a call: a write of bytes at a place of a file (`write 0 2 0a0b`), a sync (`sync 0`), a removal (`remove 0`) or a look at a
/// length (`length 0`).
fn make_call(alloc: Global, disk: &mut CarefulDisk, call: &str) -> Option<()> {
    let (kind, file, at, digits) = call_of(call, 0)?;
    match kind {
        "write" => disk.write(file, at, &bytes_of(alloc, digits)?).ok(),
        "sync" => disk.sync(file).ok(),
        "remove" => disk.remove(file).ok(),
        _ => disk.len(file).ok().and(Some(())),
    }
}

/// Makes calls, and counts those before the crash, which comes at `now`.
pub(crate) fn make_calls(
    alloc: Global,
    disk: &mut CarefulDisk,
    calls: &str,
    crash: &mut u64,
) -> Option<()> {
    for call in calls.split("; ") {
        match call {
            "now" => *crash = disk.below.calls(),
            _ => make_call(alloc, disk, call)?,
        }
    }
    Some(())
}
