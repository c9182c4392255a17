//! Both logs of a root, read over the layers of its chunks: the older one first, where there is one.
ghost use Rattle.std.specs.Prelude.{◌<◌, ◌^◌, ℕ, List, [], length};
ghost use Rattle.chunk_store.specs.Calls.{OnlyReads};
ghost use Rattle.chunk_store.specs.CrashModel.{KeepsAll};
ghost use Rattle.doc_types.specs.Schemas.{IsSchema};
ghost use Rattle.doc_types.specs.Snapshots.{AreLayers, LayerValue, all_living};
ghost use Rattle.gate_log.specs.declared.records.LogRecord.{LogRecord};
ghost use Rattle.store_reads.specs.Reads.{HasStoreCause};
ghost use Rattle.store_reads.specs.steps.Loads.{IsLoaded};
ghost use Rattle.store_reads.specs.steps.LogFiles.{ReadsLog, ReadsLogs, ReadsOlder};
ghost use Rattle.store_reads.specs.steps.Pieces.{AreChunks};

use crate::fault::StoreFault;
use crate::loading::{Loaded, LogEnd};
use chunk_store::{Disk, read_whole};
use doc_types::{Layer, Schema};
use image_chunk::AnyChunk;
use root_slots::RootState;
use srch_base::{NoMemory, OpenFault};
use std::alloc::Global;
use std::thread::Threads;
use store_steps::{Damage, DamageKind};

/// What was read of both logs of a root.
#[derive(Drop)]
pub(crate) struct Logs {
    pub(crate) loaded: Loaded,
    /// Where the older one ends, 0 where there is none.
    pub(crate) older_end: u64,
    /// Where the newer one ends.
    pub(crate) end: LogEnd,
}

/// Reads both logs of a root, over the layers of its chunks.
pub(crate) fn read_logs<D: Disk, R: Threads>(
    rt: &R,
    alloc: Global,
    disk: &mut D,
    schema: &Schema,
    state: &RootState,
    chunks: Vec<Layer<AnyChunk>>,
) -> Result<Logs, StoreFault>
    requires schema { IsSchema schema.now }
    requires sound { length chunks.items < 2 ^ 16 → length (all_living chunks.items) < 2 ^ 32 → AreLayers chunks.items }
    requires chunks { AreChunks schema.now state.now.through chunks.items }
    ensures read { ReadsLogs schema.now chunks.items state.now (D.told disk.new) result }
    ensures looks { OnlyReads D.Disk disk.old disk.new }
    ensures keeps { KeepsAll D.may_leave disk.old disk.new }
    ensures cause { HasStoreCause (D.faults disk.old) (D.faults disk.new) result }
{
    let mut loaded = match Loaded::over(state.through, chunks) {
        Ok(loaded) => loaded,
        Err(NoMemory) => return Err(StoreFault::NoMemory),
    };
    match read_older(rt, alloc, disk, schema, state, &mut loaded) {
        Ok(older_end) => match read_log(rt, alloc, disk, schema, state.newer, &mut loaded) {
            Ok(end) => Ok(Logs {
                loaded,
                older_end,
                end,
            }),
            Err(fault) => Err(fault),
        },
        Err(fault) => Err(fault),
    }
}

/// Reads the older log of a root, where there is one.
fn read_older<D: Disk, R: Threads>(
    rt: &R,
    alloc: Global,
    disk: &mut D,
    schema: &Schema,
    state: &RootState,
    loaded: &mut Loaded,
) -> Result<u64, StoreFault>
    requires limits { IsSchema schema.now }
    requires loaded { (chunks : List LayerValue) × IsLoaded schema.now chunks state.now.through [] loaded.old }
    ensures read { (chunks : List LayerValue) → IsLoaded schema.now chunks state.now.through [] loaded.old → ReadsOlder schema.now chunks state.now (D.told disk.new) result loaded.new }
    ensures looks { OnlyReads D.Disk disk.old disk.new }
    ensures keeps { KeepsAll D.may_leave disk.old disk.new }
    ensures cause { HasStoreCause (D.faults disk.old) (D.faults disk.new) result }
{
    if state.older == 0 {
        return Ok(0);
    }
    match read_log(rt, alloc, disk, schema, state.older, loaded) {
        Ok(end) => Ok(end.end),
        Err(fault) => Err(fault),
    }
}

/// Reads one log.
fn read_log<D: Disk, R: Threads>(
    rt: &R,
    alloc: Global,
    disk: &mut D,
    schema: &Schema,
    file: u32,
    loaded: &mut Loaded,
) -> Result<LogEnd, StoreFault>
    requires limits { IsSchema schema.now }
    requires loaded { (chunks : List LayerValue) × (through : ℕ) × (front : List LogRecord) × IsLoaded schema.now chunks through front loaded.old }
    ensures read { (chunks : List LayerValue) (through : ℕ) (front : List LogRecord) → IsLoaded schema.now chunks through front loaded.old → ReadsLog schema.now chunks through front file (D.told disk.new) result loaded.new }
    ensures looks { OnlyReads D.Disk disk.old disk.new }
    ensures keeps { KeepsAll D.may_leave disk.old disk.new }
    ensures cause { HasStoreCause (D.faults disk.old) (D.faults disk.new) result }
{
    match read_whole(alloc, disk, file) {
        Ok(Some(bytes)) => loaded.take_log(rt, alloc, schema, file, bytes.as_slice()),
        Ok(None) => Err(StoreFault::Damaged(Damage {
            file,
            place: 0,
            kind: DamageKind::LogMissing,
        })),
        Err(OpenFault::NoMemory) => Err(StoreFault::NoMemory),
        Err(OpenFault::Failed) => Err(StoreFault::DiskFault),
    }
}
