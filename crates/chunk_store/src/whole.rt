//! Whole files.
ghost use Rattle.std.specs.Prelude.{◌≡◌, ℕ, IfOk};
ghost use Rattle.std.specs.Option.{option_map};
ghost use Rattle.chunk_store.specs.Images.{Image, Told};
ghost use Rattle.chunk_store.specs.Calls.{OnlyReads, HasOpenCause, Finds};
ghost use Rattle.chunk_store.specs.CrashModel.{KeepsAll};

use crate::disk::Disk;
use srch_base::OpenFault;
use std::alloc::Global;

/// The bytes of a file, or None where it isn't there.
pub fn read_whole<D: Disk>(
    alloc: Global,
    disk: &mut D,
    file: u32,
) -> Result<Option<Vec<u8>>, OpenFault>
    ensures found { IfOk result (λ found. Told (λ image. Finds found (image file)) (D.told disk.new)) }
    ensures looks { OnlyReads D.Disk disk.old disk.new }
    ensures keeps { KeepsAll D.may_leave disk.old disk.new }
    ensures cause { HasOpenCause (D.faults disk.old) (D.faults disk.new) result }
{
    match disk.len(file)? {
        None => Ok(None),
        Some(len) => {
            let mut bytes = Vec::new(alloc);
            bytes.resize(len as usize, 0)?;
            disk.read(file, 0, &mut bytes)?;
            Ok(Some(bytes))
        }
    }
}
