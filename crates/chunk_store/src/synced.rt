//! Writes that are on the disk once the call has returned.
ghost use Rattle.std.specs.Prelude.{◌≡◌, ◌≤◌, Some, List, length, OnOk};
ghost use Rattle.srch_base.specs.Counts.{HasCause};
ghost use Rattle.chunk_store.specs.Images.{Image, Told, Changes, contents, Writes};
ghost use Rattle.chunk_store.specs.CrashModel.{Makes, Tears};
ghost use Rattle.chunk_store.specs.Calls.{Crashes, IsSynced};

use crate::disk::Disk;
use srch_base::Failed;

/// Writes bytes and syncs the file. After an error the range may hold any bytes.
pub fn put<D: Disk>(disk: &mut D, file: u32, at: u64, bytes: &[u8]) -> Result<(), Failed>
    requires inside { Told (λ image. at ≤ length (contents (image file))) (D.told disk.old) }
    ensures written { Makes (Changes file (Writes at bytes.now)) (Changes file (Tears at (length bytes.now))) result (D.told disk.old) (D.told disk.new) }
    ensures durable { OnOk result (IsSynced file (D.told disk.new) (D.may_leave disk.new)) }
    ensures crash { Crashes D.Disk disk.old disk.new (Changes file (Tears at (length bytes.now))) }
    ensures cause { HasCause (D.faults disk.old) (D.faults disk.new) result }
{
    disk.write(file, at, bytes)?;
    disk.sync(file)?;
    Ok(())
}

/// Makes a file anew with these bytes alone. After an error it may have any bytes, or be gone.
pub fn remake<D: Disk>(disk: &mut D, file: u32, bytes: &[u8]) -> Result<(), Failed>
    ensures written { Makes (Changes file (λ old new. new ≡ Some bytes.now)) (Changes file (λ old new. Unit {0})) result (D.told disk.old) (D.told disk.new) }
    ensures durable { OnOk result (IsSynced file (D.told disk.new) (D.may_leave disk.new)) }
    ensures crash { Crashes D.Disk disk.old disk.new (Changes file (λ old new. Unit {0})) }
    ensures cause { HasCause (D.faults disk.old) (D.faults disk.new) result }
{
    disk.remove(file)?;
    put(disk, file, 0, bytes)?;
    Ok(())
}
