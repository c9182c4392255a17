//! Files in memory, by their numbers.
ghost use Rattle.std.specs.Prelude.{◌≡◌, ◌≤◌, ◌<◌, ◌+◌, ◌^◌, ℕ, Some, None, length, IfOk, OnOk, OnErr};
ghost use Rattle.chunk_store.specs.Images.{contents, over, Reads};
ghost use Rattle.chunk_store.specs.Memory.{put_in, image_of};

use srch_base::NoMemory;
use std::alloc::Global;
use std::collections::BTreeMap;

/// Files by their numbers.
pub(crate) type Stored = BTreeMap<u32, Vec<u8>>;

/// Reads a range that lies inside a file.
pub(crate) fn read_in(files: &Stored, file: u32, at: usize, into: &mut [u8])
    requires { at + length into.old ≤ length (contents (image_of files.now file)) }
    ensures { Reads (contents (image_of files.now file)) at into.new }
{
    if let Some(bytes) = files.get(&file) {
        let end = at + into.len();
        into.copy_from_slice(&bytes[at..end]);
    }
}

/// Writes bytes over a place of a file, which is made where it isn't there.
pub(crate) fn write_in(
    alloc: Global,
    files: &mut Stored,
    file: u32,
    at: usize,
    bytes: &[u8],
) -> Result<(), NoMemory>
    requires { at ≤ length (contents (image_of files.old file)) }
    ensures written { OnOk result ((f : ℕ) → image_of files.new f ≡ put_in file (Some (over at bytes.now (contents (image_of files.old file)))) (image_of files.old) f) }
    ensures fits { OnOk result (at + length bytes.now < 2 ^ 64) }
    ensures err { OnErr result ((f : ℕ) → image_of files.new f ≡ image_of files.old f) }
{
    match files.get_mut(&file) {
        Some(stored) => write_over(stored, at, bytes),
        None => {
            let mut stored = Vec::new(alloc);
            write_over(&mut stored, at, bytes)?;
            files.insert(file, stored)?;
            Ok(())
        }
    }
}

/// Writes bytes over a place of others, and past their end.
fn write_over(stored: &mut Vec<u8>, at: usize, bytes: &[u8]) -> Result<(), NoMemory>
    requires { at ≤ length stored.old.items }
    ensures written { OnOk result (stored.new.items ≡ over at bytes.now stored.old.items) }
    ensures fits { OnOk result (at + length bytes.now < 2 ^ 64) }
    ensures err { OnErr result (stored.new.items ≡ stored.old.items) }
{
    let within = bytes.len().min(stored.len() - at);
    stored.extend_from_slice(&bytes[within..])?;
    let end = at + within;
    stored[at..end].copy_from_slice(&bytes[..within]);
    Ok(())
}
