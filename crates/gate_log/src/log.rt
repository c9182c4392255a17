//! A log, and its gate.
ghost use Rattle.std.specs.Prelude.{◌≡◌, ◌+◌, ◌<◌, ◌^◌, List, Some, None, length, true, IsSome, IfOk, OnOk, OnErr};
ghost use Rattle.srch_base.specs.Counts.{HasCause};
ghost use Rattle.chunk_store.specs.Images.{Image, Told, Both, Changes, contents};
ghost use Rattle.chunk_store.specs.CrashModel.{Makes};
ghost use Rattle.chunk_store.specs.Calls.{Crashes, IsSynced, OnlyReads};

use crate::copies::log_of;
use crate::fault::{LogFault, LogKind};
use crate::records::{LogRecord, Staged};
use chunk_store::{Disk, put, read_whole, remake};
use srch_base::{Failed, OpenFault};
use std::alloc::Global;

/// The log of one file.
#[derive(Drop)]
pub struct GateLog {
    file: u32,
    end: u64,
    last: Option<u64>,
    staged: Option<(u64, u64)>,
    pending: bool,
}

impl GateLog {
    ghost use Rattle.std.specs.Prelude.{[], ◌∷◌, ◌++◌, false, is_some};
    ghost use Rattle.gate_log.specs.declared.records.LogRecord.{LogRecord};
    ghost use Rattle.gate_log.specs.Logs.{Stands, MayFollow, staging, opening, opened, quiet_log};
    ghost use Rattle.gate_log.specs.Reading.{ReadsFile, HasLogCause, Marks};

    /// Makes the file anew, with no record.
    pub fn create<D: Disk>(disk: &mut D, file: u32) -> Result<GateLog, Failed>
        ensures log { IfOk result (λ log. log ≡ record { file = file; end = 0; last = None; staged = None; pending = false }) }
        ensures bytes { OnOk result (Both (Changes file (λ old new. new ≡ Some (0 ∷ []))) (D.told disk.old) (D.told disk.new)) }
        ensures stands { IfOk result (λ log. Both (Changes file (λ old new. Stands log [] None new)) (D.told disk.old) (D.told disk.new)) }
        ensures durable { OnOk result (IsSynced file (D.told disk.new) (D.may_leave disk.new)) }
        ensures crash { Crashes D.Disk disk.old disk.new (Changes file (λ old new. Unit {0})) }
        ensures cause { HasCause (D.faults disk.old) (D.faults disk.new) result }
    {
        remake(disk, file, &[0])?;
        Ok(GateLog {
            file,
            end: 0,
            last: None,
            staged: None,
            pending: false,
        })
    }

    /// Reads the log of a file, up to its first closed gate.
    pub fn read<D: Disk>(
        alloc: Global,
        disk: &mut D,
        file: u32,
    ) -> Result<(GateLog, Vec<LogRecord>), LogFault>
        ensures found { Told (λ image. ReadsFile file result (image file)) (D.told disk.new) }
        // Also over a disk that tells nothing.
        ensures marks { IfOk result (λ found. Marks file found.0 found.1.items) }
        ensures looks { OnlyReads D.Disk disk.old disk.new }
        ensures cause { HasLogCause (D.faults disk.old) (D.faults disk.new) result }
    {
        match read_whole(alloc, disk, file) {
            Ok(Some(bytes)) => log_of(alloc, file, bytes.as_slice()),
            Ok(None) => Err(LogFault::BadLog {
                place: 0,
                kind: LogKind::Missing,
            }),
            Err(OpenFault::NoMemory) => Err(LogFault::NoMemory),
            Err(OpenFault::Failed) => Err(LogFault::DiskFault),
        }
    }

    /// The log of a file whose records were read, and whose closed gate stands here.
    pub fn behind(file: u32, end: u64, last: Option<u64>) -> GateLog
        ensures { result ≡ quiet_log file end last }
    {
        GateLog {
            file,
            end,
            last,
            staged: None,
            pending: false,
        }
    }

    /// The place of the closed gate behind the records.
    pub fn end(&self) -> u64
        ensures { result ≡ self.now.end }
    {
        self.end
    }

    /// Whether the gate of the staged record may be open, since opening it failed.
    pub fn pending(&self) -> bool
        ensures { result ≡ self.now.pending }
    {
        self.pending
    }

    /// Writes a record behind the closed gate.
    pub fn stage<D: Disk>(&mut self, disk: &mut D, staged: &Staged) -> Result<(), Failed>
        requires none { self.old.staged ≡ None }
        requires closed { self.old.pending ≡ false }
        requires number { staged.now.number < 2 ^ 63 }
        requires follows { MayFollow self.old.last staged.now.number }
        requires stands { Told (λ image. (records : List LogRecord) × Stands self.old records None (image self.old.file)) (D.told disk.old) }
        ensures ok { OnOk result (self.new ≡ staging self.old staged.now) }
        ensures err { OnErr result (self.new ≡ self.old) }
        // On a disk that tells, the file has the same records, and behind their gate this one; after an error the same records.
        ensures stands { Makes
            (Changes self.old.file (λ old new. (records : List LogRecord) → Stands self.old records None old → Stands (staging self.old staged.now) records (Some staged.now) new))
            (Changes self.old.file (λ old new. (records : List LogRecord) → Stands self.old records None old → Stands self.old records None new))
            result (D.told disk.old) (D.told disk.new) }
        ensures durable { OnOk result (IsSynced self.old.file (D.told disk.new) (D.may_leave disk.new)) }
        // A crash at any moment leaves the records.
        ensures crash { Crashes D.Disk disk.old disk.new (Changes self.old.file (λ old new. (records : List LogRecord) → Stands self.old records None old → Stands self.old records None new)) }
        ensures cause { HasCause (D.faults disk.old) (D.faults disk.new) result }
    {
        match put(
            disk,
            self.file,
            self.end.saturating_add(1),
            staged.as_bytes(),
        ) {
            Ok(()) => {
                self.staged = Some((staged.number(), staged.len()));
                Ok(())
            }
            Err(Failed) => Err(Failed),
        }
    }

    /// Whether a record is staged.
    pub fn is_staged(&self) -> bool
        ensures { result ≡ is_some self.now.staged }
    {
        self.staged.is_some()
    }

    /// Opens the gate of the record that is staged.
    pub fn open_gate<D: Disk>(&mut self, disk: &mut D) -> Result<(), Failed>
        requires staged { IsSome self.old.staged }
        requires stands { Told (λ image. (records : List LogRecord) × (r : LogRecord) × Stands self.old records (Some r) (image self.old.file)) (D.told disk.old) }
        ensures ok { OnOk result (self.new ≡ opened self.old) }
        ensures err { OnErr result (self.new ≡ opening self.old) }
        // On a disk that tells, the file has one record more; after an error the gate may be open or not.
        ensures stands { Makes
            (Changes self.old.file (λ old new. (records : List LogRecord) (r : LogRecord) → Stands self.old records (Some r) old → Stands (opened self.old) (records ++ r ∷ []) None new))
            (Changes self.old.file (λ old new. (records : List LogRecord) (r : LogRecord) → Stands self.old records (Some r) old → Stands (opening self.old) records (Some r) new))
            result (D.told disk.old) (D.told disk.new) }
        ensures durable { OnOk result (IsSynced self.old.file (D.told disk.new) (D.may_leave disk.new)) }
        // A crash at any moment leaves the records, or these and the one that is staged.
        ensures crash { Crashes D.Disk disk.old disk.new (Changes self.old.file (λ old new. (records : List LogRecord) (r : LogRecord) → Stands self.old records (Some r) old → Stands (opening self.old) records (Some r) new)) }
        ensures cause { HasCause (D.faults disk.old) (D.faults disk.new) result }
    {
        let Some((number, size)) = self.staged else {
            return Ok(());
        };
        self.pending = true;
        match put(disk, self.file, self.end, &[1]) {
            Ok(()) => {
                self.end = self.end.saturating_add(size);
                self.last = Some(number);
                self.staged = None;
                self.pending = false;
                Ok(())
            }
            Err(Failed) => Err(Failed),
        }
    }
}
