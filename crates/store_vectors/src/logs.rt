//! Logs that are made, to which records are appended and which go on; a call that fails is made once more, after a look at what is
//! read then.
ghost use Rattle.std.specs.Prelude.{◌≡◌, ◌<◌, ◌^◌, Some, None, length, false, IsSome, IfOk};
ghost use Rattle.std.specs.Option.{IfSome, OnSome};
ghost use Rattle.gate_log.specs.Logs.{MayFollow, last_number, staging, opened};

use crate::bytes::{bytes_of, number_of};
use crate::careful_disk::CarefulDisk;
use crate::telling::{LOG, put_digits, put_file, put_log, put_value};
use chunk_store::{Disk, MemoryDisk, remake};
use gate_log::{GateLog, LogFault, LogRecord, Staged};
use srch_base::Failed;
use std::alloc::Global;

/// Makes the file of a log.
fn create(alloc: Global, disk: &mut CarefulDisk, seen: &mut String) -> Option<GateLog>
    ensures quiet { IfSome result (λ log. (log.staged ≡ None) × (log.pending ≡ false)) }
    ensures first { IfSome result (λ log. log.last ≡ None) }
{
    match GateLog::create(disk, LOG) {
        Ok(log) => Some(log),
        Err(Failed) => {
            put_log(alloc, disk, seen)?;
            GateLog::create(disk, LOG).ok()
        }
    }
}

fn stage(
    alloc: Global,
    disk: &mut CarefulDisk,
    log: &mut GateLog,
    staged: &Staged,
    seen: &mut String,
) -> Option<()>
    requires quiet { (log.old.staged ≡ None) × (log.old.pending ≡ false) }
    requires number { staged.now.number < 2 ^ 63 }
    requires follows { MayFollow log.old.last staged.now.number }
    ensures { OnSome result (log.new ≡ staging log.old staged.now) }
{
    match log.stage(disk, staged) {
        Ok(()) => Some(()),
        Err(Failed) => {
            put_log(alloc, disk, seen)?;
            log.stage(disk, staged).ok()
        }
    }
}

fn open_gate(
    alloc: Global,
    disk: &mut CarefulDisk,
    log: &mut GateLog,
    seen: &mut String,
) -> Option<()>
    requires { IsSome log.old.staged }
    ensures { OnSome result (log.new ≡ opened log.old) }
{
    match log.open_gate(disk) {
        Ok(()) => Some(()),
        Err(Failed) => {
            put_log(alloc, disk, seen)?;
            log.open_gate(disk).ok()
        }
    }
}

/// Appends a record.
fn append(
    alloc: Global,
    disk: &mut CarefulDisk,
    log: &mut GateLog,
    number: u64,
    payload: &[u8],
    seen: &mut String,
) -> Option<()>
    requires quiet { (log.old.staged ≡ None) × (log.old.pending ≡ false) }
    requires number { number < 2 ^ 63 }
    requires follows { MayFollow log.old.last number }
    requires small { length payload.now < 2 ^ 32 }
    ensures quiet { OnSome result ((log.new.staged ≡ None) × (log.new.pending ≡ false)) }
    ensures last { OnSome result (log.new.last ≡ Some number) }
{
    let staged = Staged::new(alloc, number, payload).ok()?;
    stage(alloc, disk, log, &staged, seen)?;
    open_gate(alloc, disk, log, seen)
}

/// Makes a log, and appends two records.
pub(crate) fn append_two(alloc: Global, disk: &mut CarefulDisk, seen: &mut String) -> Option<()> {
    let mut log = create(alloc, disk, seen)?;
    append(alloc, disk, &mut log, 7, &[0x0a], seen)?;
    append(alloc, disk, &mut log, 8, &[1, 1], seen)
}

/// The number behind those of some records.
#[tactic(auto, using(crate::proofs::LastNumber::follows_last))]
fn next_number(records: &[LogRecord]) -> Result<u64, LogFault>
    ensures { IfOk result (λ number. MayFollow (last_number records.now) number) }
{
    match records.last() {
        None => Ok(7),
        Some(last) if last.number < u64::MAX => Ok(last.number + 1),
        Some(_) => Err(LogFault::NoMemory),
    }
}

/// Reads a log, and gives it with the number of its next record.
fn read_log(alloc: Global, disk: &mut MemoryDisk) -> Result<(GateLog, u64), LogFault>
    ensures quiet { IfOk result (λ found. (found.0.staged ≡ None) × (found.0.pending ≡ false)) }
    ensures follows { IfOk result (λ found. MayFollow found.0.last found.1) }
    ensures small { IfOk result (λ found. found.1 < 2 ^ 63) }
{
    let (log, records) = GateLog::read(alloc, disk, LOG)?;
    let number = next_number(&records)?;
    if number >= 1 << 63 {
        return Err(LogFault::NoMemory);
    }
    Ok((log, number))
}

/// Goes on with the log that a crash left, as a program does that is started anew: syncs it, reads it, and appends a record.
pub(crate) fn go_on(alloc: Global, disk: &mut CarefulDisk, seen: &mut String) -> Option<()> {
    disk.sync(LOG).ok()?;
    match read_log(alloc, &mut disk.below) {
        Ok((mut log, number)) => append(alloc, disk, &mut log, number, &[], seen),
        Err(_) => None,
    }
}

/// Puts where a log's last record ends, whether a record is staged, whether its gate may be open, and its file.
fn put_step(alloc: Global, disk: &mut CarefulDisk, log: &GateLog, text: &mut String) -> Option<()> {
    text.push_str(" | ").ok()?;
    put_value(&log.end(), text)?;
    text.push(' ').ok()?;
    put_value(&log.is_staged(), text)?;
    text.push(' ').ok()?;
    put_value(&log.pending(), text)?;
    text.push(' ').ok()?;
    put_file(alloc, disk, LOG, text)
}

/// Puts a log once it is made in place of an older file, once a record is staged, and once its gate is open.
fn put_steps(
    alloc: Global,
    disk: &mut CarefulDisk,
    staged: &Staged,
    text: &mut String,
) -> Option<()>
    requires { staged.now.number < 2 ^ 63 }
{
    remake(disk, LOG, b"an older file").ok()?;
    let mut log = GateLog::create(disk, LOG).ok()?;
    put_step(alloc, disk, &log, text)?;
    log.stage(disk, staged).ok()?;
    put_step(alloc, disk, &log, text)?;
    log.open_gate(disk).ok()?;
    put_step(alloc, disk, &log, text)
}

/// Puts the number of a staged record, how many bytes it takes, and these.
fn put_staged(staged: &Staged, text: &mut String) -> Option<()> {
    put_value(&staged.number(), text)?;
    text.push(' ').ok()?;
    put_value(&staged.len(), text)?;
    text.push(' ').ok()?;
    put_digits(staged.as_bytes(), text)
}

/// The record of this number whose payload these words spell.
pub(crate) fn staged_of(alloc: Global, number: u64, payload: &str) -> Option<Staged>
    ensures { IfSome result (λ staged. staged.number ≡ number) }
{
    let payload = bytes_of(alloc, payload)?;
    if payload.len() >= 1 << 32 {
        return None;
    }
    Staged::new(alloc, number, &payload).ok()
}

/// Puts what a record of this number and payload says, its log at each step, and what is read then.
pub(crate) fn put_record(
    alloc: Global,
    disk: &mut CarefulDisk,
    row: &str,
    text: &mut String,
) -> Option<()> {
    let (number, payload) = row.split_once(' ')?;
    let number = number_of(number)?;
    if number >= 1 << 63 {
        return None;
    }
    let staged = staged_of(alloc, number, payload)?;
    put_staged(&staged, text)?;
    put_steps(alloc, disk, &staged, text)?;
    text.push_str(" | ").ok()?;
    put_log(alloc, disk, text)
}
