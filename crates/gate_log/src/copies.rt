//! A log with records that own their payloads.
ghost use Rattle.std.specs.Prelude.{◌≡◌, map, Some, IfOk};
ghost use Rattle.gate_log.specs.Reading.{Marks, ReadsFile, record_of};
ghost use Rattle.gate_log.specs.steps.Parts.{IsOfBytes};

use crate::fault::LogFault;
use crate::log::GateLog;
use crate::reading::{Before, RecordAt, read_records};
use crate::records::LogRecord;
use srch_base::{Items, NoMemory};
use std::alloc::Global;

/// The log of a file with these bytes, and its records.
pub(crate) fn log_of(
    alloc: Global,
    file: u32,
    bytes: &[u8],
) -> Result<(GateLog, Vec<LogRecord>), LogFault>
    ensures reads { ReadsFile file result (Some bytes.now) }
    ensures marks { IfOk result (λ found. Marks file found.0 found.1.items) }
    ensures bytes { IsOfBytes result }
{
    match read_records(alloc, bytes, Before::Anything) {
        Ok(read) => {
            if let Some(kind) = read.fault {
                return Err(LogFault::BadLog {
                    place: read.end,
                    kind,
                });
            }
            match copies_of(alloc, read.records.as_slice()) {
                Ok(records) => Ok((GateLog::behind(file, read.end, read.last), records)),
                Err(NoMemory) => Err(LogFault::NoMemory),
            }
        }
        Err(NoMemory) => Err(LogFault::NoMemory),
    }
}

/// Copies of records.
fn copies_of(alloc: Global, records: &[RecordAt]) -> Result<Vec<LogRecord>, NoMemory>
    ensures { IfOk result (λ copies. copies.items ≡ map record_of records.now) }
{
    let mut copies = Vec::new(alloc);
    for record in records {
        let payload = record.payload.to_vec(alloc)?;
        copies.push(LogRecord {
            number: record.number,
            payload: Items::new(payload),
        })?;
    }
    Ok(copies)
}
