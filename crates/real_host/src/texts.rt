//! The texts of files, up to a limit.
ghost use Rattle.std.specs.Prelude.{◌≡◌, ◌≤◌, ◌+◌, length, take, IfOk, IfSome};
ghost use Rattle.program_host.specs.Lending.{CountsOpening};

use srch_base::OpenFault;
use std::alloc::Global;
use std::fs;
use std::io::{self, ErrorKind, Read};
use std::rt::Files;

/// The first `limit + 1` bytes of a file, or all of a shorter one. An error of the system is counted as a fault.
pub fn read_text<R: Files>(
    files: &R,
    alloc: Global,
    path: &str,
    limit: u32,
    faults: &mut u64,
) -> Result<Vec<u8>, OpenFault>
    ensures short { IfOk result (λ bytes. length bytes.items ≤ limit + 1) }
    ensures cause { CountsOpening result faults.old faults.new }
{
    match read_file(alloc, files, path, limit) {
        Ok(bytes) => Ok(bytes),
        Err(error) if error.kind() == ErrorKind::OutOfMemory => Err(OpenFault::NoMemory),
        Err(_) => {
            *faults = faults.saturating_add(1);
            Err(OpenFault::Failed)
        }
    }
}

/// The first `limit + 1` bytes of a file, or all of a shorter one.
pub(crate) fn read_file<R: Files>(
    alloc: Global,
    files: &R,
    path: &str,
    limit: u32,
) -> io::Result<Vec<u8>>
    ensures { IfOk result (λ bytes. length bytes.items ≤ limit + 1) }
{
    let file = fs::open(files, path)?;
    read_front(alloc, file, limit)
}

/// The first `limit + 1` bytes that a reader gives, or all of fewer.
fn read_front<T: Read + Drop>(alloc: Global, reader: T, limit: u32) -> io::Result<Vec<u8>>
    ensures bound { IfOk result (λ bytes. length bytes.items ≤ limit + 1) }
    ensures bytes { IfOk result (λ bytes. IfSome (T.remaining reader) (λ all. bytes.items ≡ take (limit + 1) all)) }
{
    let most = u64::from(limit) + 1;
    let mut bytes = Vec::new(alloc);
    let mut front = reader.take(most);
    front.read_to_end(&mut bytes)?;
    bytes.truncate(most as usize);
    Ok(bytes)
}
