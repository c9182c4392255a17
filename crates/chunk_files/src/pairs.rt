//! Chunks, two at a time. The disk gives one file after the other, but most of the work is to check that their bytes are images: so
//! two are checked at once, one of them in a thread of its own, and no more than two wait to be checked.
ghost use Rattle.std.specs.Prelude.{◌≡◌, ◌<◌, ◌≤◌, ◌++◌, [], ◌∷◌, AllPairs, IfOk, OnOk, length};
ghost use Rattle.chunk_store.specs.Calls.{OnlyReads};
ghost use Rattle.chunk_store.specs.CrashModel.{KeepsAll};
ghost use Rattle.chunk_store.specs.Images.{Told};
ghost use Rattle.doc_types.specs.Schemas.{IsSchema};
ghost use Rattle.chunk_files.specs.Reads.{HasChunkCause};
ghost use Rattle.chunk_files.specs.steps.Files.{ReadsFile, file_of};
ghost use Rattle.chunk_files.specs.steps.Pairs.{IsCause, IsFirstFault, ReadsBoth, ReadsMore, ReadsTwo, chunk_fault};
ghost use Rattle.chunk_files.specs.steps.Rests.{AscendAll, ReadsOne};

use crate::fault::ChunkFault;
use crate::file::layer_of;
use chunk_store::{Disk, read_whole};
use doc_types::{Layer, Schema};
use image_chunk::AnyChunk;
use root_slots::ChunkEntry;
use srch_base::{NoMemory, OpenFault, Or};
use std::alloc::Global;
use std::thread::{Threads, join};
use store_steps::Damage;

/// Reads the chunks of one entry or of two, and puts their layers behind these.
pub(crate) fn read_pair<D: Disk, R: Threads>(
    rt: &R,
    alloc: Global,
    disk: &mut D,
    schema: &Schema,
    through: u64,
    pair: &[ChunkEntry],
    layers: &mut Vec<Layer<AnyChunk>>,
) -> Result<(), Or<ChunkFault>>
    requires schema { IsSchema schema.now }
    requires dead { AscendAll pair.now }
    requires some { 0 < length pair.now }
    requires few { length pair.now ≤ 2 }
    ensures read { ReadsMore schema.now through pair.now (D.told disk.new) layers.old.items layers.new.items result }
    ensures looks { OnlyReads D.Disk disk.old disk.new }
    ensures keeps { KeepsAll D.may_leave disk.old disk.new }
    ensures cause { HasChunkCause (D.faults disk.old) (D.faults disk.new) result }
{
    let first = &pair[0];
    match pair.get(1) {
        Some(second) => match read_two(rt, alloc, disk, schema, through, first, second) {
            Ok((one, two)) => match push_two(layers, one, two) {
                Ok(()) => Ok(()),
                Err(NoMemory) => Err(Or::NoMemory),
            },
            Err(fault) => Err(fault),
        },
        None => match read_one(alloc, disk, schema, through, first) {
            Ok(one) => match push_one(layers, one) {
                Ok(()) => Ok(()),
                Err(NoMemory) => Err(Or::NoMemory),
            },
            Err(fault) => Err(fault),
        },
    }
}

/// Puts a layer behind these.
fn push_one(layers: &mut Vec<Layer<AnyChunk>>, one: Layer<AnyChunk>) -> Result<(), NoMemory>
    ensures { OnOk result (layers.new.items ≡ layers.old.items ++ one ∷ []) }
{
    layers.push(one)?;
    Ok(())
}

/// Puts two layers behind these.
fn push_two(
    layers: &mut Vec<Layer<AnyChunk>>,
    one: Layer<AnyChunk>,
    two: Layer<AnyChunk>,
) -> Result<(), NoMemory>
    ensures { OnOk result (layers.new.items ≡ layers.old.items ++ one ∷ two ∷ []) }
{
    push_one(layers, one)?;
    push_one(layers, two)
}

/// Reads one chunk.
fn read_one<D: Disk>(
    alloc: Global,
    disk: &mut D,
    schema: &Schema,
    through: u64,
    entry: &ChunkEntry,
) -> Result<Layer<AnyChunk>, Or<ChunkFault>>
    requires schema { IsSchema schema.now }
    requires dead { AllPairs (λ row later. row < later) entry.now.dead }
    ensures read { ReadsOne schema.now through entry.now (D.told disk.new) result }
    ensures looks { OnlyReads D.Disk disk.old disk.new }
    ensures keeps { KeepsAll D.may_leave disk.old disk.new }
    ensures cause { HasChunkCause (D.faults disk.old) (D.faults disk.new) result }
{
    match find(alloc, disk, entry) {
        Ok(found) => match layer_of(alloc, schema, through, entry, found) {
            Ok(layer) => Ok(layer),
            Err(fault) => Err(chunk_fault(fault)),
        },
        Err(fault) => Err(fault),
    }
}

/// Reads two chunks.
fn read_two<D: Disk, R: Threads>(
    rt: &R,
    alloc: Global,
    disk: &mut D,
    schema: &Schema,
    through: u64,
    first: &ChunkEntry,
    second: &ChunkEntry,
) -> Result<(Layer<AnyChunk>, Layer<AnyChunk>), Or<ChunkFault>>
    requires schema { IsSchema schema.now }
    requires first { AllPairs (λ row later. row < later) first.now.dead }
    requires second { AllPairs (λ row later. row < later) second.now.dead }
    ensures read { ReadsTwo schema.now through first.now second.now (D.told disk.new) result }
    ensures looks { OnlyReads D.Disk disk.old disk.new }
    ensures keeps { KeepsAll D.may_leave disk.old disk.new }
    ensures cause { HasChunkCause (D.faults disk.old) (D.faults disk.new) result }
{
    match find(alloc, disk, first) {
        Ok(found) => match find(alloc, disk, second) {
            Ok(its) => match check_two(rt, alloc, schema, through, first, found, second, its) {
                Ok(layers) => Ok(layers),
                Err(fault) => Err(chunk_fault(fault)),
            },
            Err(fault) => Err(first_fault(alloc, schema, through, first, found, fault)),
        },
        Err(fault) => Err(fault),
    }
}

/// Why two chunks aren't read, of which this was found of the first file, and the second can't be read for this reason.
fn first_fault(
    alloc: Global,
    schema: &Schema,
    through: u64,
    first: &ChunkEntry,
    found: Option<Vec<u8>>,
    fault: Or<ChunkFault>,
) -> Or<ChunkFault>
    requires schema { IsSchema schema.now }
    requires dead { AllPairs (λ row later. row < later) first.now.dead }
    ensures { IsFirstFault schema.now through first.now (file_of found) fault result }
{
    match layer_of(alloc, schema, through, first, found) {
        Ok(_) => fault,
        Err(sooner) => chunk_fault(sooner),
    }
}

/// The bytes of a chunk's file, or None where it isn't there.
fn find<D: Disk>(
    alloc: Global,
    disk: &mut D,
    entry: &ChunkEntry,
) -> Result<Option<Vec<u8>>, Or<ChunkFault>>
    ensures found { IfOk result (λ found. Told (λ image. image entry.now.file ≡ file_of found) (D.told disk.new)) }
    ensures fault { IsCause result }
    ensures looks { OnlyReads D.Disk disk.old disk.new }
    ensures keeps { KeepsAll D.may_leave disk.old disk.new }
    ensures cause { HasChunkCause (D.faults disk.old) (D.faults disk.new) result }
{
    match read_whole(alloc, disk, entry.file) {
        Ok(found) => Ok(found),
        Err(OpenFault::NoMemory) => Err(Or::NoMemory),
        Err(OpenFault::Failed) => Err(Or::Fault(ChunkFault::Failed)),
    }
}

/// What is wrong with a chunk, among the faults of chunks.
fn chunk_fault(fault: Or<Damage>) -> Or<ChunkFault>
    ensures { result ≡ chunk_fault fault }
{
    match fault {
        Or::NoMemory => Or::NoMemory,
        Or::Fault(damage) => Or::Fault(ChunkFault::Damaged(damage)),
    }
}

/// The layers of two chunks, of whose files this was found.
fn check_two<R: Threads>(
    rt: &R,
    alloc: Global,
    schema: &Schema,
    through: u64,
    first: &ChunkEntry,
    found: Option<Vec<u8>>,
    second: &ChunkEntry,
    its: Option<Vec<u8>>,
) -> Result<(Layer<AnyChunk>, Layer<AnyChunk>), Or<Damage>>
    requires schema { IsSchema schema.now }
    requires first { AllPairs (λ row later. row < later) first.now.dead }
    requires second { AllPairs (λ row later. row < later) second.now.dead }
    ensures { ReadsBoth schema.now through first.now second.now (file_of found) (file_of its) result }
{
    let (one, two) = check_both(rt, alloc, schema, through, first, found, second, its);
    match one {
        Ok(one) => match two {
            Ok(two) => Ok((one, two)),
            Err(fault) => Err(fault),
        },
        Err(fault) => Err(fault),
    }
}

/// Checks the files of two chunks at once.
fn check_both<R: Threads>(
    rt: &R,
    alloc: Global,
    schema: &Schema,
    through: u64,
    first: &ChunkEntry,
    found: Option<Vec<u8>>,
    second: &ChunkEntry,
    its: Option<Vec<u8>>,
) -> (
    Result<Layer<AnyChunk>, Or<Damage>>,
    Result<Layer<AnyChunk>, Or<Damage>>,
)
    requires schema { IsSchema schema.now }
    requires first { AllPairs (λ row later. row < later) first.now.dead }
    requires second { AllPairs (λ row later. row < later) second.now.dead }
    ensures first { ReadsFile schema.now through first.now (file_of found) result.0 }
    ensures second { ReadsFile schema.now through second.now (file_of its) result.1 }
{
    let beside = move || -> Result<Layer<AnyChunk>, Or<Damage>>
        requires { IsSchema schema.now × AllPairs (λ row later. row < later) first.now.dead }
        ensures { ReadsFile schema.entry.now through first.entry.now (file_of found) result }
    { layer_of(alloc, schema, through, first, found) };
    let here = move || -> Result<Layer<AnyChunk>, Or<Damage>>
        requires { IsSchema schema.now × AllPairs (λ row later. row < later) second.now.dead }
        ensures { ReadsFile schema.entry.now through second.entry.now (file_of its) result }
    { layer_of(alloc, schema, through, second, its) };
    join(rt, beside, here)
}
