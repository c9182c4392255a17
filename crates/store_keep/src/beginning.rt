//! An index without documents: its first log, and then its first root, which names that log.
ghost use Rattle.std.specs.Prelude.{◌≡◌, ◌<◌, ◌^◌, [], None, IfOk, OnOk};
ghost use Rattle.doc_bytes.specs.SchemaText.{schema_text};
ghost use Rattle.doc_types.specs.Schemas.{IsSchema};
ghost use Rattle.gate_log.specs.Logs.{quiet_log};
ghost use Rattle.root_slots.specs.Roots.{Stands as RootStands, Steps, replaced};
ghost use Rattle.root_slots.specs.Slots.{slots_of};
ghost use Rattle.root_slots.specs.States.{IsState};
ghost use Rattle.std.specs.Arc.{arc_value};
ghost use Rattle.store_keep.specs.steps.Beginnings.{Begins, MayBegin, first_state};
ghost use Rattle.store_keep.specs.steps.Finds.{Finds, IsRootRead};
ghost use Rattle.chunk_store.specs.Images.{Told};
ghost use Rattle.chunk_store.specs.Calls.{Crashes};
ghost use Rattle.srch_base.specs.Counts.{HasCause};
ghost use Rattle.store_keep.specs.Opens.{HasStoreCause, HidesNothing, LeavesBegun};
ghost use Rattle.store_reads.specs.steps.Loads.{IsSnapshotOf};

use chunk_store::Disk;
use doc_types::{Schema, Snapshot};
use gate_log::GateLog;
use image_chunk::AnyChunk;
use root_slots::{Root, RootBytes, RootState};
use srch_base::{Failed, Items, NoMemory, Text};
use std::alloc::Global;
use std::sync::Arc;
use store_reads::{Found, StoreFault, text_of};
use store_steps::Files;

/// The first file of an index that isn't a slot.
const FIRST_LOG: u32 = 2;

/// The most bytes of the text of columns. Those of a schema have far fewer.
const MOST_TEXT: usize = 65_535;

/// The first log and the first root of an index without documents.
pub(crate) fn begin<D: Disk>(
    alloc: Global,
    disk: &mut D,
    schema: &Schema,
    mut root: Root,
) -> Result<Found, StoreFault>
    requires schema { IsSchema schema.now }
    requires root { IsRootRead (D.told disk.old) (D.may_leave disk.old) root None }
    ensures finds { Finds D.Disk schema.now disk.old disk.new result }
    ensures leaves { HidesNothing D.Disk disk.old → LeavesBegun D.Disk schema.now disk.old disk.new }
    ensures cause { HasStoreCause (D.faults disk.old) (D.faults disk.new) result }
{
    match first_of(alloc, schema) {
        Ok((state, bytes, snapshot)) => {
            if root.full() {
                return Err(StoreFault::NoMemory);
            }
            match first_files(disk, &mut root, &bytes) {
                Ok(log) => Ok(Found {
                    files: Files::sure(root, state, log),
                    snapshot,
                    records: 0,
                    documents: 0,
                }),
                Err(Failed) => Err(StoreFault::DiskFault),
            }
        }
        Err(NoMemory) => Err(StoreFault::NoMemory),
    }
}

/// The first state of an index, its bytes, and its snapshot.
fn first_of(
    alloc: Global,
    schema: &Schema,
) -> Result<(RootState, RootBytes, Arc<Snapshot<AnyChunk>, Global>), NoMemory>
    requires { IsSchema schema.now }
    ensures first { IfOk result (λ first. first.0 ≡ first_state schema.now) }
    ensures bytes { IfOk result (λ first. first.1 ≡ first_state schema.now) }
    ensures state { IfOk result (λ first. IsState (first_state schema.now)) }
    ensures snapshot { IfOk result (λ first. IsSnapshotOf schema.now [] 0 [] (arc_value first.2)) }
{
    let state = state_of(alloc, schema)?;
    let bytes = RootBytes::new(alloc, &state)?;
    let snapshot = empty_snapshot(alloc);
    Ok((state, bytes, Arc::new(alloc, snapshot)?))
}

/// The snapshot of an index without documents.
fn empty_snapshot(alloc: Global) -> Snapshot<AnyChunk>
    ensures { result ≡ record { number = 0; shape = 0; layers = [] } }
{
    Snapshot {
        number: 0,
        shape: 0,
        layers: Items::new(Vec::new(alloc)),
    }
}

/// The first state of an index.
fn state_of(alloc: Global, schema: &Schema) -> Result<RootState, NoMemory>
    ensures state { IfOk result (λ state. state ≡ first_state schema.now) }
    ensures is { IfOk result (λ state. IsState (first_state schema.now)) }
{
    let text = text_of(alloc, schema)?;
    if text.len() > MOST_TEXT {
        return Err(NoMemory);
    }
    Ok(RootState {
        schema_text: Text::new(text),
        through: 0,
        next_file: FIRST_LOG + 1,
        older: 0,
        newer: FIRST_LOG,
        chunks: Items::new(Vec::new(alloc)),
    })
}

/// Writes the first log and the first root.
fn first_files<D: Disk>(disk: &mut D, root: &mut Root, bytes: &RootBytes) -> Result<GateLog, Failed>
    requires room { root.old.number < 2 ^ 63 }
    requires stands { Told (λ image. RootStands root.old None None (slots_of image)) (D.told disk.old) }
    ensures log { IfOk result (λ log. log ≡ quiet_log 2 0 None) }
    ensures root { OnOk result (root.new ≡ replaced root.old) }
    ensures stands { OnOk result (Steps D.Disk (Begins root.old bytes.now) disk.old disk.new) }
    ensures crash { Crashes D.Disk disk.old disk.new (MayBegin root.old bytes.now) }
    ensures cause { HasCause (D.faults disk.old) (D.faults disk.new) result }
{
    match GateLog::create(disk, FIRST_LOG) {
        Ok(log) => match root.replace(disk, bytes) {
            Ok(()) => Ok(log),
            Err(Failed) => Err(Failed),
        },
        Err(Failed) => Err(Failed),
    }
}
