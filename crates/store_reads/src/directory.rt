//! What a root names, read: its chunks, and its logs over them. The first damage in this order is what is said.
ghost use Rattle.std.specs.Prelude.{◌≡◌, List, None, Some, IfOk};
ghost use Rattle.chunk_store.specs.Calls.{OnlyReads};
ghost use Rattle.chunk_store.specs.CrashModel.{KeepsAll};
ghost use Rattle.chunk_store.specs.Images.{Told};
ghost use Rattle.doc_types.specs.Schemas.{IsSchema};
ghost use Rattle.doc_types.specs.Snapshots.{LayerValue};
ghost use Rattle.doc_types.specs.declared.schema.Schema.{Schema as AnySchema};
ghost use Rattle.gate_log.specs.declared.records.LogRecord.{LogRecord};
ghost use Rattle.root_slots.specs.Openings.{Opens};
ghost use Rattle.root_slots.specs.Slots.{slots_of};
ghost use Rattle.root_slots.specs.States.{IsState};
ghost use Rattle.store_reads.specs.Reads.{HasStoreCause, ReadsDirectory};
ghost use Rattle.store_reads.specs.steps.Bases.{ReadsBase};
ghost use Rattle.store_reads.specs.steps.Founds.{FindsEarly, IsLoadedAs, last_gate};
ghost use Rattle.store_reads.specs.steps.Loads.{IsLoaded};

use crate::columns::check_columns;
use crate::fault::StoreFault;
use crate::found::Found;
use crate::logs::{Logs, read_logs};
use chunk_files::{ChunkFault, read_chunks};
use chunk_store::Disk;
use doc_types::{Layer, Schema};
use gate_log::GateLog;
use image_chunk::AnyChunk;
use root_slots::{Root, RootState};
use srch_base::{NoMemory, Or};
use std::alloc::Global;
use std::sync::Arc;
use std::thread::Threads;
use store_steps::{Damage, DamageKind, Files};

/// Reads what a root names: its chunks, and its logs over them.
///
/// A long log is read and indexed by two threads, as far as the system gives them.
pub fn read_directory<D: Disk, R: Threads>(
    rt: &R,
    alloc: Global,
    disk: &mut D,
    schema: &Schema,
    root: Root,
    state: RootState,
) -> Result<Found, StoreFault>
    requires schema { IsSchema schema.now }
    requires state { IsState state }
    requires root { Told (λ image. Opens root (Some state) (slots_of image)) (D.told disk.old) }
    ensures read { ReadsDirectory schema.now root state (D.told disk.new) result }
    ensures looks { OnlyReads D.Disk disk.old disk.new }
    ensures keeps { KeepsAll D.may_leave disk.old disk.new }
    ensures cause { HasStoreCause (D.faults disk.old) (D.faults disk.new) result }
{
    match check_columns(alloc, schema, &root, &state) {
        Ok(()) => match read_base(rt, alloc, disk, schema, &state) {
            Ok(chunks) => match read_logs(rt, alloc, disk, schema, &state, chunks) {
                Ok(logs) => match early_end(&state, &logs) {
                    Some(damage) => Err(StoreFault::Damaged(damage)),
                    None => match load(alloc, root, state, logs) {
                        Ok(found) => Ok(found),
                        Err(NoMemory) => Err(StoreFault::NoMemory),
                    },
                },
                Err(fault) => Err(fault),
            },
            Err(fault) => Err(fault),
        },
        Err(fault) => Err(fault),
    }
}

/// The layers of a root's chunks.
fn read_base<D: Disk, R: Threads>(
    rt: &R,
    alloc: Global,
    disk: &mut D,
    schema: &Schema,
    state: &RootState,
) -> Result<Vec<Layer<AnyChunk>>, StoreFault>
    requires schema { IsSchema schema.now }
    requires state { IsState state.now }
    ensures read { ReadsBase schema.now state.now (D.told disk.new) result }
    ensures looks { OnlyReads D.Disk disk.old disk.new }
    ensures keeps { KeepsAll D.may_leave disk.old disk.new }
    ensures cause { HasStoreCause (D.faults disk.old) (D.faults disk.new) result }
{
    match read_chunks(rt, alloc, disk, schema, state) {
        Ok(layers) => Ok(layers),
        Err(Or::NoMemory) => Err(StoreFault::NoMemory),
        Err(Or::Fault(ChunkFault::Failed)) => Err(StoreFault::DiskFault),
        Err(Or::Fault(ChunkFault::Damaged(damage))) => Err(StoreFault::Damaged(damage)),
    }
}

/// The documents of a root's logs, which end no earlier than the chunks do.
fn load(alloc: Global, root: Root, state: RootState, logs: Logs) -> Result<Found, NoMemory>
    requires late { FindsEarly state logs None }
    ensures { IfOk result (λ found. (schema : AnySchema) (chunks : List LayerValue) (records : List LogRecord) → IsLoaded schema chunks state.through records logs.loaded → IsLoadedAs schema chunks root state logs records found) }
{
    let Logs { loaded, end, .. } = logs;
    let snapshot = loaded.into_snapshot();
    let records = snapshot.number.saturating_sub(state.through);
    let documents = snapshot.live_count();
    let log = GateLog::behind(state.newer, end.end, end.last);
    Ok(Found {
        files: Files::sure(root, state, log),
        snapshot: Arc::new(alloc, snapshot)?,
        records,
        documents,
    })
}

/// Where the logs end, if they have records and end before the chunks do.
fn early_end(state: &RootState, logs: &Logs) -> Option<Damage>
    ensures { FindsEarly state.now logs.now result }
{
    match logs.loaded.last() {
        Some(last) => {
            if last < state.through {
                return Some(last_gate(state, logs));
            }
            None
        }
        None => None,
    }
}

/// The closed gate behind the last record, as damage: the next record couldn't be numbered.
fn last_gate(state: &RootState, logs: &Logs) -> Damage
    ensures { result ≡ last_gate state.now logs.now }
{
    let kind = DamageKind::RecordNumber;
    match logs.end.last {
        Some(_) => Damage {
            file: state.newer,
            place: logs.end.end,
            kind,
        },
        None => Damage {
            file: state.older,
            place: logs.older_end,
            kind,
        },
    }
}
