//! A disk that tells nothing, over a disk in memory: whether a call's conditions hold is looked up before it is made.
ghost use Rattle.srch_base.specs.Counts.{last_count};

use chunk_store::{Disk, MemoryDisk};
use srch_base::Failed;
use std::alloc::Global;

/// A disk in memory whose calls fail where what they ask for isn't so. Each read, write and sync asks for the length first, and
/// so is two calls of the disk below. Its count of faults stands at its end, and so needs no counting.
#[derive(Drop)]
pub(crate) struct CarefulDisk {
    pub below: MemoryDisk,
}

/// A disk in memory of which these calls fail.
pub(crate) fn failing_disk(alloc: Global, failing: &[u64]) -> Option<CarefulDisk> {
    let failing = Vec::from_slice(alloc, failing).ok()?;
    Some(CarefulDisk {
        below: MemoryDisk::new(alloc, failing),
    })
}

impl Disk for CarefulDisk {
    ghost use Rattle.std.specs.Prelude.{None};

    ghost told = { λ _. None };

    ghost may_leave = { λ _ _. ⊥ };

    ghost clock = { λ _. 0 };

    ghost may_have_left = { λ _ _ _. ⊥ };

    ghost faults = { λ _. last_count };

    ghost passes = { λ _ _ told. Prim.cc };

    ghost tells = { λ _ _ left. Prim.absurd left };

    ghost short = { λ _ _ _ left. Prim.absurd left };

    ghost counts_now = { λ _ _ _ _ left. left };

    ghost only_now = { λ _ _ left. left };

    fn len(&mut self, file: u32) -> Result<Option<u64>, Failed> {
        self.below.len(file)
    }

    fn read(&mut self, file: u32, at: u64, into: &mut [u8]) -> Result<(), Failed> {
        let len = self.below.len(file)?.unwrap_or(0);
        if at > len || len - at < into.len() as u64 {
            return Err(Failed);
        }
        self.below.read(file, at, into)
    }

    fn write(&mut self, file: u32, at: u64, bytes: &[u8]) -> Result<(), Failed> {
        let len = self.below.len(file)?.unwrap_or(0);
        if at > len {
            return Err(Failed);
        }
        self.below.write(file, at, bytes)
    }

    fn sync(&mut self, file: u32) -> Result<(), Failed> {
        if self.below.len(file)?.is_none() {
            return Err(Failed);
        }
        self.below.sync(file)
    }

    fn remove(&mut self, file: u32) -> Result<(), Failed> {
        self.below.remove(file)
    }
}
