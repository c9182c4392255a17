//! The records of a piece of a log, read one after the other: what they come to together, whatever the layers before them are.
ghost use Rattle.std.specs.Prelude.{◌<◌, ◌^◌, List, OnOk, length};
ghost use Rattle.gate_log.specs.declared.records.LogRecord.{LogRecord};
ghost use Rattle.store_reads.specs.steps.Pieces.{AreShort, IsTaken, ReadsPiece, Takes, TakesRecord};

use crate::fault::StoreFault;
use crate::recent::Recent;
use doc_bytes::read_txn;
use doc_types::{Schema, Txn};
use gate_log::RecordAt;
use srch_base::{NoMemory, Or};
use std::alloc::Global;
use store_steps::{Damage, DamageKind};

/// Where records come from.
#[derive(Clone, Copy)]
pub(crate) struct Source<'a> {
    pub(crate) schema: &'a Schema,
    /// The last commit that the chunks have.
    pub(crate) through: u64,
    /// The number of its file.
    pub(crate) file: u32,
}

/// Reads the records of a piece. Each document is moved out of its record, so that it is in memory once.
pub(crate) fn read_piece(
    alloc: Global,
    source: Source<'_>,
    records: &[RecordAt<'_>],
) -> Result<Recent, StoreFault>
    requires { AreShort records.now }
    ensures { ReadsPiece source.entry.schema.now source.entry.through source.entry.file records.now result }
{
    let mut recent = Recent::new(alloc);
    for entry in records {
        match take_record(alloc, source, entry, &mut recent) {
            Ok(()) => {}
            Err(fault) => return Err(fault),
        }
    }
    Ok(recent)
}

/// Takes one record.
fn take_record(
    alloc: Global,
    source: Source<'_>,
    entry: &RecordAt<'_>,
    recent: &mut Recent,
) -> Result<(), StoreFault>
    requires { length entry.now.payload.now < 2 ^ 32 }
    ensures { (front : List LogRecord) → IsTaken source.entry.schema.now source.entry.through front recent.old → TakesRecord source.entry.schema.now source.entry.through front entry.now source.entry.file result recent.new }
{
    match read_txn(alloc, source.schema, entry.payload) {
        Ok(txn) => match take(source.through, entry.number, txn, recent) {
            Ok(()) => Ok(()),
            Err(NoMemory) => Err(StoreFault::NoMemory),
        },
        Err(Or::NoMemory) => Err(StoreFault::NoMemory),
        Err(Or::Fault(_)) => Err(StoreFault::Damaged(Damage {
            file: source.file,
            place: entry.place,
            kind: DamageKind::RecordPayload,
        })),
    }
}

/// Takes the commit of this number. What the chunks have isn't made again.
fn take(through: u64, number: u64, txn: Txn, recent: &mut Recent) -> Result<(), NoMemory>
    ensures { OnOk result (Takes through number txn.ops recent.old recent.new) }
{
    if number > through {
        recent.take_txn(number, txn)?;
    }
    Ok(())
}
