//! The disk over a folder of the system. It tells nothing: what a real folder holds and keeps is trusted.
ghost use Rattle.std.specs.Prelude.{◌≤◌};
ghost use Rattle.srch_base.specs.Counts.{HasCause};

use crate::disk::Disk;
use crate::folder::Folder;
use srch_base::{Failed, OpenFault};
use std::alloc::Global;
use std::fs::File;
use std::io::{self, ErrorKind};
use std::rt::Files;

/// A disk over a folder. File n is the file named n in decimal.
///
/// While it is there no other program can open the folder as a disk: it holds the lock of the file `lock` in it.
#[derive(Drop)]
pub struct DirDisk<R> {
    folder: Folder<R>,
    faults: u64,
}

impl<R: Files<File = File> + Drop + Send> DirDisk<R> {
    /// Opens a folder. Failed where it isn't there, or another disk is open over it.
    pub fn open(rt: R, alloc: Global, path: &str) -> Result<DirDisk<R>, OpenFault> {
        match Folder::open(rt, alloc, path) {
            Ok(folder) => Ok(DirDisk { folder, faults: 0 }),
            Err(error) if error.kind() == ErrorKind::OutOfMemory => Err(OpenFault::NoMemory),
            Err(_) => Err(OpenFault::Failed),
        }
    }
}

impl<R: Files<File = File> + Drop + Send> Disk for DirDisk<R> {
    ghost use Rattle.std.specs.Prelude.{None};

    ghost told = { λ _. None };

    ghost may_leave = { λ _ _. ⊥ };

    ghost clock = { λ _. 0 };

    ghost may_have_left = { λ _ _ _. ⊥ };

    ghost faults = { λ disk. disk.faults };

    ghost passes = { λ _ _ told. Prim.cc };

    ghost tells = { λ _ _ left. Prim.absurd left };

    ghost short = { λ _ _ _ left. Prim.absurd left };

    ghost counts_now = { λ _ _ _ _ left. left };

    ghost only_now = { λ _ _ left. left };

    fn len(&mut self, file: u32) -> Result<Option<u64>, Failed> {
        let len = self.folder.len(file);
        counted(len, &mut self.faults)
    }

    fn read(&mut self, file: u32, at: u64, into: &mut [u8]) -> Result<(), Failed> {
        let read = self.folder.read(file, at, into);
        counted(read, &mut self.faults)
    }

    fn write(&mut self, file: u32, at: u64, bytes: &[u8]) -> Result<(), Failed> {
        let written = self.folder.write(file, at, bytes);
        counted(written, &mut self.faults)
    }

    fn sync(&mut self, file: u32) -> Result<(), Failed> {
        let synced = self.folder.sync(file);
        counted(synced, &mut self.faults)
    }

    fn remove(&mut self, file: u32) -> Result<(), Failed> {
        let removed = self.folder.remove(file);
        counted(removed, &mut self.faults)
    }
}

/// Counts an error of the system as a fault.
fn counted<T>(outcome: io::Result<T>, faults: &mut u64) -> Result<T, Failed>
    ensures { HasCause faults.old faults.new result }
{
    match outcome {
        Ok(value) => Ok(value),
        Err(_) => {
            *faults = faults.saturating_add(1);
            Err(Failed)
        }
    }
}
