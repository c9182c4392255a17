//! The disk of an index as the host gives it: a disk over a folder that remembers which of its calls failed last. It tells nothing, as
//! the disk below it.
ghost use Rattle.std.specs.Prelude.{◌≡◌, ◌≤◌};
ghost use Rattle.srch_base.specs.Counts.{HasCause};

use crate::causes::Causes;
use crate::folders::{open_folder, why_failed};
use chunk_store::{DirDisk, Disk};
use srch_base::Failed;
use std::alloc::Global;
use std::io;

/// A call on a file that failed.
#[derive(Clone, Copy)]
pub(crate) enum Call {
    /// Of its length, or of bytes of it.
    Read(u32),
    /// Of new bytes, or to keep them.
    Write(u32),
    Remove(u32),
}

/// The disk over a folder.
#[derive(Drop)]
pub struct HostDisk {
    files: HostRuntime,
    alloc: Global,
    path: String,
    disk: DirDisk<HostRuntime>,
    faults: u64,
    failed: Option<Call>,
}

impl HostDisk {
    /// The disk over the folder of this path, which is made where it isn't there.
    pub(crate) fn open(files: HostRuntime, alloc: Global, path: &str) -> io::Result<HostDisk> {
        let disk = open_folder(files, alloc, path)?;
        Ok(HostDisk {
            files,
            alloc,
            path: String::from_str(alloc, path)?,
            disk,
            faults: 0,
            failed: None,
        })
    }

    /// Notes the call that failed last, and why where that can be found out.
    pub(crate) fn note_failure(&self, causes: &mut Causes)
        ensures { causes.new.faults ≡ causes.old.faults }
    {
        if let Some(call) = self.failed {
            let why = why_failed(&self.files, self.alloc, self.path.as_str(), call);
            let (doing, file) = match call {
                Call::Read(file) => ("reading", file),
                Call::Write(file) => ("writing", file),
                Call::Remove(file) => ("removing", file),
            };
            if let Ok(what) = format!(in self.alloc; "file {file} of the folder {}", self.path) {
                causes.note(doing, what.as_str(), why);
            }
        }
    }

    /// What a call answered. It is counted and noted where it failed.
    fn counted<T>(&mut self, call: Call, answer: Result<T, Failed>) -> Result<T, Failed>
        ensures { HasCause self.old.faults self.new.faults result }
    {
        match answer {
            Ok(value) => Ok(value),
            Err(Failed) => {
                self.faults = self.faults.saturating_add(1);
                self.failed = Some(call);
                Err(Failed)
            }
        }
    }
}

impl Disk for HostDisk {
    ghost use Rattle.std.specs.Prelude.{None};

    ghost told = { λ _. None };

    ghost may_leave = { λ _ _. ⊥ };

    ghost clock = { λ _. 0 };

    ghost may_have_left = { λ _ _ _. ⊥ };

    ghost faults = { λ disk. disk.faults };

    ghost passes = { λ _ _ told. Prim.cc };

    ghost tells = { λ _ _ left. Prim.absurd left };

    ghost short = { λ _ _ _ left. Prim.absurd left };

    ghost counts_now = { λ _ _ _ _ left. left };

    ghost only_now = { λ _ _ left. left };

    fn len(&mut self, file: u32) -> Result<Option<u64>, Failed> {
        let len = self.disk.len(file);
        self.counted(Call::Read(file), len)
    }

    fn read(&mut self, file: u32, at: u64, into: &mut [u8]) -> Result<(), Failed> {
        let read = self.disk.read(file, at, into);
        self.counted(Call::Read(file), read)
    }

    fn write(&mut self, file: u32, at: u64, bytes: &[u8]) -> Result<(), Failed> {
        let written = self.disk.write(file, at, bytes);
        self.counted(Call::Write(file), written)
    }

    fn sync(&mut self, file: u32) -> Result<(), Failed> {
        let synced = self.disk.sync(file);
        self.counted(Call::Write(file), synced)
    }

    fn remove(&mut self, file: u32) -> Result<(), Failed> {
        let removed = self.disk.remove(file);
        self.counted(Call::Remove(file), removed)
    }
}
