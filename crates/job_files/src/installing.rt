//! How the end of a job is written: its chunk, a new log, and a root that names them. The log so far becomes the older one.
ghost use Rattle.std.specs.Prelude.{◌≡◌, ◌+◌, ◌<◌, ◌≤◌, ◌^◌, ℕ, [], None, Some, true, false, Option, List, OnOk, OnErr, IfOk};
ghost use Rattle.std.specs.Option.{option_copied};
ghost use Rattle.srch_base.specs.Counts.{HasCause};
ghost use Rattle.chunk_store.specs.Images.{Both, Changes};
ghost use Rattle.chunk_store.specs.Calls.{Crashes};
ghost use Rattle.gate_log.specs.Logs.{quiet_log};
ghost use Rattle.root_slots.specs.Roots.{Steps};
ghost use Rattle.job_files.specs.Jobs.{Anything, AreWritten, Becomes, IsBegun, IsJob, TakesNumbers, log_file, names};
ghost use Rattle.store_steps.specs.Kept.{Gives, GivesEither, IsKept, LeavesOnly};

use chunk_store::{Disk, remake};
use doc_types::Chunk;
use gate_log::GateLog;
use root_slots::{RootBytes, RootState};
use srch_base::Failed;
use step_book::{Front, Made, Naming};
use store_steps::Files;

/// Writes a chunk's file, where there is one.
fn put_chunk<D: Disk>(disk: &mut D, file: u32, chunk: Option<&[u8]>) -> Result<(), Failed>
    ensures stands { OnOk result (Steps D.Disk (Changes file (Becomes (option_copied chunk.entry))) disk.old disk.new) }
    ensures moved { Both (Changes file Anything) (D.told disk.old) (D.told disk.new) }
    ensures crash { Crashes D.Disk disk.old disk.new (Changes file Anything) }
    ensures cause { HasCause (D.faults disk.old) (D.faults disk.new) result }
{
    match chunk {
        None => Ok(()),
        Some(bytes) => match remake(disk, file, bytes) {
            Ok(()) => Ok(()),
            Err(Failed) => Err(Failed),
        },
    }
}

/// Begins a log in a file.
fn begin_log<D: Disk>(disk: &mut D, file: u32) -> Result<GateLog, Failed>
    ensures log { IfOk result (λ log. log ≡ quiet_log file 0 None) }
    ensures stands { OnOk result (Steps D.Disk (Changes file (IsBegun file)) disk.old disk.new) }
    ensures moved { Both (Changes file Anything) (D.told disk.old) (D.told disk.new) }
    ensures crash { Crashes D.Disk disk.old disk.new (Changes file Anything) }
    ensures cause { HasCause (D.faults disk.old) (D.faults disk.new) result }
{
    match remake(disk, file, &[0]) {
        Ok(()) => Ok(GateLog::behind(file, 0, None)),
        Err(Failed) => Err(Failed),
    }
}

/// The file of the new log, where the files from this number on are made.
pub fn log_file(file: u32, chunk: Option<&[u8]>) -> u32
    requires { file + 1 < 2 ^ 32 }
    ensures { result ≡ log_file file (option_copied chunk.entry) }
{
    match chunk {
        None => file,
        Some(_) => file + 1,
    }
}

/// Writes the new files. Their numbers aren't taken again, even after an error.
fn write_files<D: Disk, J: Naming>(
    files: &mut Files,
    disk: &mut D,
    front: &Front<J>,
    chunk: Option<&[u8]>,
) -> Result<GateLog, Failed>
    requires kept { IsKept D.Disk (J.schema front.now.index) (J.base front.now.index) front.now.steps None disk.old files.old }
    requires rests { files.old.log.staged ≡ None }
    requires room { files.old.next_file + 2 < 2 ^ 32 }
    ensures own { files.new ≡ record files.old { next_file = log_file files.old.next_file (option_copied chunk.entry) + 1 } }
    ensures kept { IsKept D.Disk (J.schema front.now.index) (J.base front.now.index) front.now.steps None disk.new files.new }
    ensures log { IfOk result (λ log. log ≡ quiet_log (log_file files.old.next_file (option_copied chunk.entry)) 0 None) }
    ensures written { OnOk result (AreWritten D.Disk (option_copied chunk.entry) files.old.next_file disk.new) }
    ensures crash { LeavesOnly D.Disk disk.old disk.new (Gives (J.schema front.now.index) (J.base front.now.index) front.now.steps) }
    ensures cause { HasCause (D.faults disk.old) (D.faults disk.new) result }
{
    let file = files.next_file;
    let new_log = log_file(file, chunk);
    files.next_file = new_log + 1;
    match put_chunk(disk, file, chunk) {
        Ok(()) => match begin_log(disk, new_log) {
            Ok(log) => Ok(log),
            Err(Failed) => Err(Failed),
        },
        Err(Failed) => Err(Failed),
    }
}

/// Replaces the root. After an error it is in doubt which state it has.
fn replace_root<D: Disk, J: Naming, C: Chunk>(
    files: &mut Files,
    disk: &mut D,
    front: &Front<J>,
    made: &Made<C>,
    file: u32,
    chunk: Option<&[u8]>,
    state: RootState,
    bytes: &RootBytes,
    log: GateLog,
) -> Result<(), Failed>
    requires kept { IsKept D.Disk (J.schema front.now.index) (J.base front.now.index) front.now.steps None disk.old files.old }
    requires rests { files.old.log.staged ≡ None }
    requires room { files.old.root.number < 2 ^ 63 }
    requires files { files.old.next_file ≡ log_file file (option_copied chunk) + 1 }
    requires log { log ≡ quiet_log (log_file file (option_copied chunk)) 0 None }
    requires bytes { bytes.now ≡ state }
    requires written { AreWritten D.Disk (option_copied chunk) file disk.old }
    requires job { IsJob (J.schema front.now.index) (J.base front.now.index) front.now.steps files.old.state file (option_copied chunk) state made.now }
    ensures ok { OnOk result (IsKept D.Disk (J.schema front.now.index) (J.base front.now.index) front.now.steps (Some made.now) disk.new files.new) }
    ensures err { OnErr result (IsKept D.Disk (J.schema front.now.index) (J.base front.now.index) front.now.steps None disk.new files.new) }
    ensures sure { OnOk result (files.new.sure ≡ true) }
    ensures rests { files.new.log.staged ≡ None }
    ensures file { files.new.next_file ≡ files.old.next_file }
    ensures root { files.new.root.number ≡ files.old.root.number + 1 }
    ensures crash { LeavesOnly D.Disk disk.old disk.new (Gives (J.schema front.now.index) (J.base front.now.index) front.now.steps) }
    ensures cause { HasCause (D.faults disk.old) (D.faults disk.new) result }
{
    let _steps = front.len();
    match files.root.replace(disk, bytes) {
        Ok(()) => {
            files.log = log;
            files.state = state;
            files.sure = true;
            Ok(())
        }
        Err(Failed) => {
            files.sure = false;
            Err(Failed)
        }
    }
}

/// Writes the end of a job, which waits from then on. After an error all is as before, though a crash may leave either state.
pub fn install<D: Disk, J: Naming, C: Chunk>(
    files: &mut Files,
    disk: &mut D,
    front: &Front<J>,
    made: &Made<C>,
    chunk: Option<&[u8]>,
    state: RootState,
    bytes: &RootBytes,
) -> Result<(), Failed>
    requires kept { IsKept D.Disk (J.schema front.now.index) (J.base front.now.index) front.now.steps None disk.old files.old }
    requires rests { files.old.log.staged ≡ None }
    requires room { files.old.root.number < 2 ^ 63 }
    requires files { files.old.next_file + 2 < 2 ^ 32 }
    requires bytes { bytes.now ≡ state }
    requires job { IsJob (J.schema front.now.index) (J.base front.now.index) front.now.steps files.old.state files.old.next_file (option_copied chunk) state made.now }
    ensures ok { OnOk result (IsKept D.Disk (J.schema front.now.index) (J.base front.now.index) front.now.steps (Some made.now) disk.new files.new) }
    ensures err { OnErr result (IsKept D.Disk (J.schema front.now.index) (J.base front.now.index) front.now.steps None disk.new files.new) }
    ensures sure { OnOk result (files.new.sure ≡ true) }
    ensures rests { files.new.log.staged ≡ None }
    ensures numbers { TakesNumbers files.old files.new }
    ensures crash { LeavesOnly D.Disk disk.old disk.new (Gives (J.schema front.now.index) (J.base front.now.index) front.now.steps) }
    ensures cause { HasCause (D.faults disk.old) (D.faults disk.new) result }
{
    let file = files.next_file;
    match write_files(files, disk, front, chunk) {
        Ok(log) => replace_root(files, disk, front, made, file, chunk, state, bytes, log),
        Err(Failed) => Err(Failed),
    }
}

/// Removes a file that the state doesn't name, where none is in doubt. Whether that succeeds doesn't matter.
pub fn remove<D: Disk, J: Naming, C: Chunk>(
    files: &mut Files,
    disk: &mut D,
    front: &Front<J>,
    waiting: &Option<Made<C>>,
    file: u32,
)
    requires kept { IsKept D.Disk (J.schema front.now.index) (J.base front.now.index) front.now.steps waiting.now disk.old files.old }
    requires sure { files.old.sure ≡ true }
    requires no_slot { 2 ≤ file }
    requires unnamed { names files.old.state file ≡ false }
    ensures own { files.new ≡ files.old }
    ensures kept { IsKept D.Disk (J.schema front.now.index) (J.base front.now.index) front.now.steps waiting.now disk.new files.new }
    ensures crash { LeavesOnly D.Disk disk.old disk.new (GivesEither (J.schema front.now.index) (J.base front.now.index) front.now.steps waiting.now) }
    ensures later { D.faults disk.old ≤ D.faults disk.new }
{
    match disk.remove(file) {
        Ok(()) => {}
        Err(Failed) => {}
    }
}
