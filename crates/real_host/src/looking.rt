//! A disk over a folder that is looked at alone: no lock is taken, and no folder and no file is made or changed. So it may be opened
//! over the folder of a daemon that runs; what it reads then is of the moments of its reads.
ghost use Rattle.std.specs.Prelude.{◌≤◌};
ghost use Rattle.srch_base.specs.Counts.{HasCause, Rose};

use chunk_store::Disk;
use srch_base::{Failed, OpenFault};
use std::alloc::Global;
use std::fs::{self, File};
use std::io::{self, ErrorKind};
use std::os::unix::fs::FileExt;
use std::rt::Files;

/// A disk over a folder that is looked at alone. File n is the file named n in decimal. What would change a file fails.
#[derive(Drop)]
pub struct LookDisk<R> {
    files: R,
    alloc: Global,
    path: String,
    faults: u64,
}

impl<R: Files<File = File> + Drop> LookDisk<R> {
    /// Looks at a folder. Failed where it isn't there.
    pub fn open(files: R, alloc: Global, path: &str) -> Result<LookDisk<R>, OpenFault> {
        match folder(&files, alloc, path) {
            Ok(path) => Ok(LookDisk {
                files,
                alloc,
                path,
                faults: 0,
            }),
            Err(error) if error.kind() == ErrorKind::OutOfMemory => Err(OpenFault::NoMemory),
            Err(_) => Err(OpenFault::Failed),
        }
    }

    /// A file that is there.
    fn file(&self, number: u32) -> io::Result<File> {
        let path = format!(in self.alloc; "{}/{}", self.path, number)?;
        let file = File::open(&self.files, path.as_str())?;
        if !file.metadata()?.is_file() {
            return Err(io::Error::from(ErrorKind::Unsupported));
        }
        Ok(file)
    }

    /// The length of a file. None where it isn't there.
    fn len_of(&self, number: u32) -> io::Result<Option<u64>> {
        match self.file(number) {
            Ok(file) => Ok(Some(file.metadata()?.len())),
            Err(error) if error.kind() == ErrorKind::NotFound => Ok(None),
            Err(error) => Err(error),
        }
    }

    /// Reads a range of a file. One that doesn't lie inside it is an error.
    fn read_in(&self, number: u32, at: u64, into: &mut [u8]) -> io::Result<()> {
        self.file(number)?.read_exact_at(into, at)
    }
}

/// The path of a folder that is there.
fn folder<R: Files<File = File>>(files: &R, alloc: Global, path: &str) -> io::Result<String> {
    if !fs::metadata(files, path)?.is_dir() {
        return Err(io::Error::from(ErrorKind::NotADirectory));
    }
    Ok(String::from_str(alloc, path)?)
}

impl<R: Files<File = File> + Drop> Disk for LookDisk<R> {
    ghost use Rattle.std.specs.Prelude.{None};

    ghost told = { λ _. None };

    ghost may_leave = { λ _ _. ⊥ };

    ghost clock = { λ _. 0 };

    ghost may_have_left = { λ _ _ _. ⊥ };

    ghost faults = { λ disk. disk.faults };

    ghost passes = { λ _ _ told. Prim.cc };

    ghost tells = { λ _ _ left. Prim.absurd left };

    ghost short = { λ _ _ _ left. Prim.absurd left };

    ghost counts_now = { λ _ _ _ _ left. left };

    ghost only_now = { λ _ _ left. left };

    fn len(&mut self, file: u32) -> Result<Option<u64>, Failed> {
        let len = self.len_of(file);
        counted(len, &mut self.faults)
    }

    fn read(&mut self, file: u32, at: u64, into: &mut [u8]) -> Result<(), Failed> {
        let read = self.read_in(file, at, into);
        counted(read, &mut self.faults)
    }

    fn write(&mut self, _file: u32, _at: u64, _bytes: &[u8]) -> Result<(), Failed> {
        Err(fault(&mut self.faults))
    }

    fn sync(&mut self, _file: u32) -> Result<(), Failed> {
        Err(fault(&mut self.faults))
    }

    fn remove(&mut self, _file: u32) -> Result<(), Failed> {
        Err(fault(&mut self.faults))
    }
}

/// Counts an error of the system as a fault.
fn counted<T>(outcome: io::Result<T>, faults: &mut u64) -> Result<T, Failed>
    ensures { HasCause faults.old faults.new result }
{
    match outcome {
        Ok(value) => Ok(value),
        Err(_) => Err(fault(faults)),
    }
}

/// Counts a fault.
fn fault(faults: &mut u64) -> Failed
    ensures rose { Rose faults.old faults.new }
    ensures later { faults.old ≤ faults.new }
{
    *faults = faults.saturating_add(1);
    Failed
}
