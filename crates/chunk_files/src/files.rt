//! All chunks of a root, read in their order.
ghost use Rattle.std.specs.Prelude.{◌≡◌, ◌<◌, List, [], All, AllPairs, length};
ghost use Rattle.chunk_store.specs.Calls.{OnlyReads};
ghost use Rattle.chunk_store.specs.CrashModel.{KeepsAll};
ghost use Rattle.doc_types.specs.Schemas.{IsSchema};
ghost use Rattle.doc_types.specs.Snapshots.{IsLayer};
ghost use Rattle.doc_types.specs.declared.documents.DocRow.{DocRow};
ghost use Rattle.root_slots.specs.States.{IsState};
ghost use Rattle.store_steps.specs.Directory.{layers_from};
ghost use Rattle.chunk_files.specs.Reads.{HasChunkCause, ReadsChunks};
ghost use Rattle.chunk_files.specs.steps.Rests.{AscendAll, ReadsAgain, ReadsFiles};

use crate::again::again_in;
use crate::fault::ChunkFault;
use crate::file::row_place;
use crate::pairs::read_pair;
use chunk_store::Disk;
use doc_types::{Layer, Schema};
use image_chunk::AnyChunk;
use root_slots::{ChunkEntry, RootState};
use srch_base::Or;
use std::alloc::Global;
use std::thread::Threads;
use store_steps::{Damage, DamageKind};

/// The layers of the chunks that a root names, or what is wrong with them: the first file that is, or else the first row whose id
/// lives in a chunk before.
///
/// Two files are checked at once, as far as the system gives threads.
pub fn read_chunks<D: Disk, R: Threads>(
    rt: &R,
    alloc: Global,
    disk: &mut D,
    schema: &Schema,
    state: &RootState,
) -> Result<Vec<Layer<AnyChunk>>, Or<ChunkFault>>
    requires schema { IsSchema schema.now }
    requires state { IsState state.now }
    ensures read { ReadsChunks schema.now state.now (D.told disk.new) result }
    ensures looks { OnlyReads D.Disk disk.old disk.new }
    ensures keeps { KeepsAll D.may_leave disk.old disk.new }
    ensures cause { HasChunkCause (D.faults disk.old) (D.faults disk.new) result }
{
    let entries = state.chunks.as_slice();
    match read_files(rt, alloc, disk, schema, state.through, entries) {
        Ok(layers) => match again(schema, entries, layers.as_slice()) {
            None => Ok(layers),
            Some(damage) => Err(Or::Fault(ChunkFault::Damaged(damage))),
        },
        Err(fault) => Err(fault),
    }
}

/// Reads the chunks of these entries, two at a time.
fn read_files<D: Disk, R: Threads>(
    rt: &R,
    alloc: Global,
    disk: &mut D,
    schema: &Schema,
    through: u64,
    entries: &[ChunkEntry],
) -> Result<Vec<Layer<AnyChunk>>, Or<ChunkFault>>
    requires schema { IsSchema schema.now }
    requires dead { AscendAll entries.now }
    ensures read { ReadsFiles schema.now through entries.now (D.told disk.new) result }
    ensures looks { OnlyReads D.Disk disk.old disk.new }
    ensures keeps { KeepsAll D.may_leave disk.old disk.new }
    ensures cause { HasChunkCause (D.faults disk.old) (D.faults disk.new) result }
{
    let mut layers = Vec::new(alloc);
    let mut rest = entries;
    'pairs: while !rest.is_empty() {
        let (pair, others) = rest.split_at(rest.len().min(2));
        match read_pair(rt, alloc, disk, schema, through, pair, &mut layers) {
            Ok(()) => rest = others,
            Err(fault) => return Err(fault),
        }
    }
    Ok(layers)
}

/// The first row, chunk by chunk, that lives though its id lives in a chunk before.
fn again(schema: &Schema, entries: &[ChunkEntry], layers: &[Layer<AnyChunk>]) -> Option<Damage>
    requires schema { IsSchema schema.now }
    requires layers { All IsLayer layers.now }
    requires count { length entries.now ≡ length layers.now }
    ensures { (chunks : List (List DocRow)) → layers.now ≡ layers_from entries.now chunks → ReadsAgain schema.now [] entries.now chunks result }
{
    'chunks: for (number, layer) in layers.iter().enumerate() {
        if let Some(row) = again_in(&layers[..number], layer) {
            let file = entries[number].file;
            let place = row_place(schema, row);
            let kind = DamageKind::IdTwice;
            return Some(Damage { file, place, kind });
        }
    }
    None
}
