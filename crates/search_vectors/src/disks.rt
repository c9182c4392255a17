//! Disks in memory. They are given on as they come up, with no call made on them yet, so that a crash hides nothing of what a read
//! finds in them.
ghost use Rattle.std.specs.Prelude.{◌≡◌, [], All, IfSome};
ghost use Rattle.chunk_store.specs.contracts.memory_disk.MemoryDiskDisk.TheImpl as memory_words;
ghost use Rattle.store_keep.specs.Opens.{HidesNothing};

use crate::bytes::put_digits;
use crate::told::put_number;
use chunk_store::{Disk, MemoryDisk};
use srch_base::Text;
use std::alloc::Global;

/// The disk, and that a crash hides nothing of it.
fn shown(disk: MemoryDisk) -> MemoryDisk
    requires { disk.calls.items ≡ [] }
    ensures same { result ≡ disk }
    ensures hides { HidesNothing memory_words.ghosts result }
{
    disk
}

/// What a crash after all calls on a disk leaves.
fn crashed(disk: &MemoryDisk, pick: u8) -> Option<MemoryDisk>
    ensures { IfSome result (HidesNothing memory_words.ghosts) }
{
    Some(shown(disk.after_crash(disk.calls(), pick).ok()?))
}

/// The calls that fail, by the words of a store.
fn failing_of(alloc: Global, store: &str) -> Option<Vec<u64>> {
    match store.split_once("!") {
        Some((_, call)) => vec![in alloc; call.parse::<u64>().ok()?].ok(),
        None => Some(Vec::new(alloc)),
    }
}

/// The disk of a store, by the words of a table.
fn disk_of(alloc: Global, store: &str, before: Option<&MemoryDisk>) -> Option<MemoryDisk>
    ensures { IfSome result (HidesNothing memory_words.ghosts) }
{
    if let Some((_, pick)) = store.split_once("~") {
        return crashed(before?, pick.parse::<u8>().ok()?);
    }
    Some(shown(MemoryDisk::new(alloc, failing_of(alloc, store)?)))
}

/// The store of an index, with its path.
fn store_of(alloc: Global, index: &str, before: Option<&MemoryDisk>) -> Option<(Text, MemoryDisk)>
    ensures { IfSome result (λ store. HidesNothing memory_words.ghosts store.1) }
{
    let name = index.split(" ").next()?;
    let path = Text::from_slice(alloc, name.as_bytes()).ok()?;
    Some((path, disk_of(alloc, index, before)?))
}

/// The stores of indexes, by the words of a table.
///
/// An index is its name, which is its store's path. The store has no files. `!N` says that the N-th call on it fails; `~N` says that it is
/// what a crash by the pick N leaves of the first store that came back of the run before.
pub(crate) fn stores_of(
    alloc: Global,
    indexes: &str,
    before: Option<&MemoryDisk>,
) -> Option<Vec<(Text, MemoryDisk)>>
    ensures { IfSome result (λ stores. All (λ store. HidesNothing memory_words.ghosts store.1) stores.items) }
{
    let mut stores = Vec::new(alloc);
    for index in indexes.split(" + ") {
        let store = store_of(alloc, index, before)?;
        stores.push(store).ok()?;
    }
    Some(stores)
}

/// Appends the number of a file and its bytes.
fn put_named(alloc: Global, file: u32, bytes: &[u8], told: &mut String) -> Option<()> {
    told.push_str(" ").ok()?;
    put_number(told, u64::from(file))?;
    told.push_str("=").ok()?;
    put_digits(alloc, told, bytes)
}

/// Appends a file that is there.
fn put_file<D: Disk>(alloc: Global, disk: &mut D, file: u32, told: &mut String) -> Option<()> {
    let Some(length) = disk.len(file).ok()? else {
        return Some(());
    };
    let mut bytes = vec![in alloc; 0; usize::try_from(length).ok()?].ok()?;
    if disk.read(file, 0, &mut bytes).is_ok() {
        put_named(alloc, file, bytes.as_slice(), told)
    } else {
        None
    }
}

/// Appends the files of a disk below number 7, as the words of a table spell them.
fn put_files<D: Disk>(alloc: Global, disk: &mut D, told: &mut String) -> Option<()> {
    for file in 0..7 {
        put_file(alloc, disk, file, told)?;
    }
    Some(())
}

/// Appends the files that a crash after all calls on a disk leaves.
pub(crate) fn put_left(
    alloc: Global,
    disk: &MemoryDisk,
    pick: u8,
    told: &mut String,
) -> Option<()> {
    put_files(alloc, &mut crashed(disk, pick)?, told)
}
