//! The front of a file.
ghost use Rattle.std.specs.Prelude.{◌≡◌, ℕ, IfOk};
ghost use Rattle.std.specs.Option.{option_map};
ghost use Rattle.chunk_store.specs.Images.{Image, Told};
ghost use Rattle.chunk_store.specs.Calls.{OnlyReads, HasOpenCause};
ghost use Rattle.gate_log.specs.Reading.{FindsFront};

use chunk_store::Disk;
use srch_base::OpenFault;
use std::alloc::Global;

/// The first bytes of a file, at most so many, or None where it isn't there.
///
/// A log has an end, and what stands behind it doesn't count: a damaged file that is longer takes no more memory.
pub fn read_front<D: Disk>(
    alloc: Global,
    disk: &mut D,
    file: u32,
    most: u64,
) -> Result<Option<Vec<u8>>, OpenFault>
    ensures found { IfOk result (λ found. Told (λ image. FindsFront most found (image file)) (D.told disk.new)) }
    ensures looks { OnlyReads D.Disk disk.old disk.new }
    ensures cause { HasOpenCause (D.faults disk.old) (D.faults disk.new) result }
{
    match disk.len(file)? {
        None => Ok(None),
        Some(len) => {
            let mut bytes = Vec::new(alloc);
            bytes.resize(len.min(most) as usize, 0)?;
            disk.read(file, 0, &mut bytes)?;
            Ok(Some(bytes))
        }
    }
}
