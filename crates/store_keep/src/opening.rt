//! How a store is opened. Each file is synced and then read, so that what was read is what a crash leaves.
ghost use Rattle.std.specs.Prelude.{◌≡◌, Some, IfOk, IfErr, IfSome, OnOk};
ghost use Rattle.std.specs.Arc.{arc_value};
ghost use Rattle.std.specs.List.{AllByRecursion};
ghost use Rattle.srch_base.specs.Counts.{HasCause};
ghost use Rattle.chunk_store.specs.Calls.{OnlyReads};
ghost use Rattle.chunk_store.specs.Images.{Told};
ghost use Rattle.doc_types.specs.Schemas.{IsSchema};
ghost use Rattle.root_slots.specs.States.{IsState};
ghost use Rattle.store_keep.specs.Opens.{BeginsAt, HasStoreCause, HidesNothing, IsFoundIn, IsOpened, LeavesBegun, SaysDamage, base_of, disk_of};
ghost use Rattle.store_keep.specs.steps.Finds.{AreSteady, Finds, IsRootRead, IsSteady, ReadsSteadySlots};

use crate::beginning::begin;
use chunk_store::Disk;
use doc_types::{Schema, Snapshot};
use image_chunk::AnyChunk;
use root_slots::{ChunkEntry, Root, RootState};
use srch_base::Failed;
use std::alloc::Global;
use std::sync::Arc;
use std::thread::Threads;
use step_book::{NewBook, NewLine};
use store_reads::{Found, StoreFault, read_directory, read_root};
use store_steps::Files;

/// A store that was opened and has no name yet, with the three lines of its index: of steps, of faults and of stops.
#[derive(Drop)]
pub struct Opened<D: Disk> {
    pub(crate) disk: D,
    pub(crate) files: Files,
    pub(crate) book: NewBook,
    pub(crate) faults: NewLine<u32>,
    pub(crate) stops: NewLine<u32>,
    pub(crate) snapshot: Arc<Snapshot<AnyChunk>, Global>,
    pub(crate) records: u64,
    pub(crate) documents: u32,
}

impl<D: Disk> Opened<D> {
    /// Opens the store of an index on a disk, which comes back where it can't be opened.
    ///
    /// The files of chunks are read two at a time, and a long log is read and indexed by two threads, as far as the system gives them.
    pub fn open<R: Threads>(
        rt: &R,
        alloc: Global,
        disk: D,
        schema: &Schema,
    ) -> Result<Opened<D>, (D, StoreFault)>
        requires { IsSchema schema.now }
        ensures found { IfOk result (λ opened. Told (IsFoundIn schema.now (arc_value opened.snapshot) opened.records) (D.told disk)) }
        ensures fresh { IfOk result (λ opened. Told (BeginsAt (base_of opened).log) (D.told disk)) }
        ensures opened { IfOk result (λ opened. HidesNothing D.Disk disk → IsOpened D.Disk schema.now opened) }
        ensures leaves { HidesNothing D.Disk disk → LeavesBegun D.Disk schema.now disk (disk_of result) }
        ensures refused { IfErr result (λ refused. SaysDamage schema.now (D.told disk) refused.1) }
        ensures cause { IfErr result (λ refused. HasStoreCause {T = D} (D.faults disk) (D.faults refused.0) (Err refused.1)) }
    {
        let mut disk = disk;
        match find(rt, alloc, &mut disk, schema) {
            Ok(found) => {
                let Found {
                    files,
                    snapshot,
                    records,
                    documents,
                } = found;
                Ok(Opened {
                    disk,
                    files,
                    book: NewBook::new(),
                    faults: NewLine::new(),
                    stops: NewLine::new(),
                    snapshot,
                    records,
                    documents,
                })
            }
            Err(fault) => Err((disk, fault)),
        }
    }
}

/// Reads the files of an index, or makes the first ones.
fn find<D: Disk, R: Threads>(
    rt: &R,
    alloc: Global,
    disk: &mut D,
    schema: &Schema,
) -> Result<Found, StoreFault>
    requires { IsSchema schema.now }
    ensures finds { Finds D.Disk schema.now disk.old disk.new result }
    ensures leaves { HidesNothing D.Disk disk.old → LeavesBegun D.Disk schema.now disk.old disk.new }
    ensures cause { HasStoreCause (D.faults disk.old) (D.faults disk.new) result }
{
    match read_slots(alloc, disk) {
        Ok((root, Some(state))) => read_found(rt, alloc, disk, schema, root, state),
        Ok((root, None)) => begin(alloc, disk, schema, root),
        Err(fault) => Err(fault),
    }
}

/// Reads the root of slots that are synced first.
fn read_slots<D: Disk>(alloc: Global, disk: &mut D) -> Result<(Root, Option<RootState>), StoreFault>
    ensures read { ReadsSteadySlots (D.told disk.new) (D.may_leave disk.new) result }
    ensures state { IfOk result (λ found. IfSome found.1 IsState) }
    ensures looks { OnlyReads D.Disk disk.old disk.new }
    ensures cause { HasStoreCause (D.faults disk.old) (D.faults disk.new) result }
{
    match steady(disk, 0) {
        Ok(()) => match steady(disk, 1) {
            Ok(()) => read_root(alloc, disk),
            Err(Failed) => Err(StoreFault::DiskFault),
        },
        Err(Failed) => Err(StoreFault::DiskFault),
    }
}

/// Reads what a root names: files that are synced first.
fn read_found<D: Disk, R: Threads>(
    rt: &R,
    alloc: Global,
    disk: &mut D,
    schema: &Schema,
    root: Root,
    state: RootState,
) -> Result<Found, StoreFault>
    requires schema { IsSchema schema.now }
    requires state { IsState state }
    requires root { IsRootRead (D.told disk.old) (D.may_leave disk.old) root (Some state) }
    ensures finds { Finds D.Disk schema.now disk.old disk.new result }
    ensures looks { OnlyReads D.Disk disk.old disk.new }
    ensures cause { HasStoreCause (D.faults disk.old) (D.faults disk.new) result }
{
    match steady_files(disk, &state) {
        Ok(()) => read_directory(rt, alloc, disk, schema, root, state),
        Err(Failed) => Err(StoreFault::DiskFault),
    }
}

/// Makes sure that what is read of the files that a root names is what a crash leaves of them.
fn steady_files<D: Disk>(disk: &mut D, state: &RootState) -> Result<(), Failed>
    ensures steady { OnOk result (AreSteady state.now (D.told disk.new) (D.may_leave disk.new)) }
    ensures looks { OnlyReads D.Disk disk.old disk.new }
    ensures cause { HasCause (D.faults disk.old) (D.faults disk.new) result }
{
    match steady_chunks(disk, state.chunks.as_slice()) {
        Ok(()) => steady_logs(disk, state.older, state.newer),
        Err(Failed) => Err(Failed),
    }
}

/// Makes sure that what is read of chunks is what a crash leaves of them.
fn steady_chunks<D: Disk>(disk: &mut D, chunks: &[ChunkEntry]) -> Result<(), Failed>
    ensures steady { OnOk result (AllByRecursion (λ entry. IsSteady entry.file (D.told disk.new) (D.may_leave disk.new)) chunks.now) }
    ensures looks { OnlyReads D.Disk disk.old disk.new }
    ensures cause { HasCause (D.faults disk.old) (D.faults disk.new) result }
{
    'chunks: for entry in chunks {
        match steady(disk, entry.file) {
            Ok(()) => {}
            Err(Failed) => return Err(Failed),
        }
    }
    Ok(())
}

/// The same of both logs. Where there is no older one, file 0 is a slot, which was synced before.
fn steady_logs<D: Disk>(disk: &mut D, older: u32, newer: u32) -> Result<(), Failed>
    ensures older { OnOk result (¬ (older ≡ 0) → IsSteady older (D.told disk.new) (D.may_leave disk.new)) }
    ensures newer { OnOk result (IsSteady newer (D.told disk.new) (D.may_leave disk.new)) }
    ensures looks { OnlyReads D.Disk disk.old disk.new }
    ensures cause { HasCause (D.faults disk.old) (D.faults disk.new) result }
{
    if older == 0 {
        return steady(disk, newer);
    }
    match steady(disk, older) {
        Ok(()) => steady(disk, newer),
        Err(Failed) => Err(Failed),
    }
}

/// Makes sure that what is read of a file is what a crash leaves of it.
fn steady<D: Disk>(disk: &mut D, file: u32) -> Result<(), Failed>
    ensures steady { OnOk result (IsSteady file (D.told disk.new) (D.may_leave disk.new)) }
    ensures looks { OnlyReads D.Disk disk.old disk.new }
    ensures cause { HasCause (D.faults disk.old) (D.faults disk.new) result }
{
    match disk.len(file)? {
        Some(_) => disk.sync(file),
        None => Ok(()),
    }
}
