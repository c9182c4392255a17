//! How a piece of a log gets a layer: what it names dies in the layers that are there, its rows become one more, and these are put
//! together as after a commit.
ghost use Rattle.std.specs.Prelude.{◌≡◌, ◌<◌, ◌^◌, ◌++◌, ℕ, List, [], AllPairs, false, IfOk, length};
ghost use Rattle.doc_types.specs.Chunks.{IsContent};
ghost use Rattle.doc_types.specs.Schemas.{IsSchema};
ghost use Rattle.doc_types.specs.Snapshots.{AreLayers, LayerValue, all_living};
ghost use Rattle.doc_types.specs.declared.schema.Schema.{Schema as AnySchema};
ghost use Rattle.gate_log.specs.declared.records.LogRecord.{LogRecord};
ghost use Rattle.layer_commit.specs.Commits.{layers_after, layers_of, removals};
ghost use Rattle.layer_joins.specs.Joins.{AreApart, AreOfOne, MayMerge};
ghost use Rattle.store_reads.specs.steps.Pieces.{IsLaidOf, IsPiece};

use crate::pieces::{MOST_ROWS, Piece};
use doc_types::{Chunk, Layer, Snapshot};
use image_chunk::AnyChunk;
use layer_commit::{kill_rows, live_count};
use layer_joins::merge_last;
use srch_base::{Items, NoMemory};
use std::alloc::Global;
use std::sync::Arc;

/// The most layers of a snapshot.
const MOST_LAYERS: usize = 65_535;

/// The snapshot once a piece has a layer behind its own.
pub(crate) fn lay(
    alloc: Global,
    laid: &Snapshot<AnyChunk>,
    piece: Piece,
) -> Result<Snapshot<AnyChunk>, NoMemory>
    requires { (schema : AnySchema) × IsSchema schema × ((chunks : List LayerValue) × (through : ℕ) × (front : List LogRecord) × (records : List LogRecord) × IsLaidOf schema chunks through front laid.now × IsPiece schema through records piece) }
    ensures { IfOk result (λ next. (schema : AnySchema) (chunks : List LayerValue) (through : ℕ) (front records : List LogRecord) → IsLaidOf schema chunks through front laid.now → IsPiece schema through records piece → IsLaidOf schema chunks through (front ++ records) next) }
{
    let Piece {
        cleared,
        named,
        chunk,
    } = piece;
    let left = left_of(alloc, laid, cleared, &named)?;
    let layers = with_layer(alloc, left, chunk)?;
    let next = snapshot_of(laid, layers)?;
    Ok(upkept(alloc, next))
}

/// A snapshot, its last layers put together where that is cheap by now.
pub fn upkept(alloc: Global, mut next: Snapshot<AnyChunk>) -> Snapshot<AnyChunk>
    requires { AreOfOne (all_living next.layers) }
    ensures merges { MayMerge next result }
    ensures sound { AreLayers result.layers }
    ensures apart { AreApart (all_living next.layers) }
{
    // The rows stand, whether or not there is memory for upkeep.
    let _ = merge_last(alloc, &mut next);
    next
}

/// The same snapshot of other layers, unless these or their rows are too many.
fn snapshot_of(
    laid: &Snapshot<AnyChunk>,
    layers: Vec<Layer<AnyChunk>>,
) -> Result<Snapshot<AnyChunk>, NoMemory>
    requires { length layers.items < 2 ^ 16 → length (all_living layers.items) < 2 ^ 32 → AreLayers layers.items }
    ensures layers { IfOk result (λ next. next.layers ≡ layers.items) }
    ensures shape { IfOk result (λ next. next.shape ≡ laid.now.shape) }
    ensures sound { IfOk result (λ next. AreLayers layers.items) }
{
    if layers.len() > MOST_LAYERS {
        return Err(NoMemory);
    }
    if live_count(layers.as_slice()) > MOST_ROWS as u64 {
        return Err(NoMemory);
    }
    Ok(Snapshot {
        number: laid.number,
        shape: laid.shape,
        layers: Items::new(layers),
    })
}

/// A snapshot of layers, unless these or their rows are too many.
pub(crate) fn snapshot_with(
    number: u64,
    layers: Vec<Layer<AnyChunk>>,
) -> Result<Snapshot<AnyChunk>, NoMemory>
    requires { length layers.items < 2 ^ 16 → length (all_living layers.items) < 2 ^ 32 → AreLayers layers.items }
    ensures is { IfOk result (λ next. next ≡ record { number = number; shape = 0; layers = layers.items }) }
    ensures sound { IfOk result (λ next. AreLayers layers.items) }
{
    if layers.len() > MOST_LAYERS {
        return Err(NoMemory);
    }
    if live_count(layers.as_slice()) > MOST_ROWS as u64 {
        return Err(NoMemory);
    }
    Ok(Snapshot {
        number,
        shape: 0,
        layers: Items::new(layers),
    })
}

/// What is left of the layers once all of their rows, or those of these ids, are gone.
fn left_of(
    alloc: Global,
    laid: &Snapshot<AnyChunk>,
    cleared: bool,
    ids: &[u64],
) -> Result<Vec<Layer<AnyChunk>>, NoMemory>
    requires { AllPairs (λ id later. id < later) ids.now }
    ensures left { IfOk result (λ left. left.items ≡ layers_after (removals cleared ids.now) [] laid.now.layers) }
    ensures sound { AreLayers laid.now.layers }
{
    kill_rows(alloc, laid.layers.as_slice(), cleared, ids)
}

/// These layers and one of a chunk in memory, if it has rows.
fn with_layer(
    alloc: Global,
    layers: Vec<Layer<AnyChunk>>,
    chunk: AnyChunk,
) -> Result<Vec<Layer<AnyChunk>>, NoMemory>
    requires { IsContent (⟦<AnyChunk as Chunk>⟧.content chunk) }
    ensures { IfOk result (λ all. all.items ≡ layers.items ++ layers_of (⟦<AnyChunk as Chunk>⟧.content chunk)) }
{
    let mut layers = layers;
    if chunk.rows() > 0 {
        layers.push(layer_of(alloc, chunk)?)?;
    }
    Ok(layers)
}

/// A layer of a chunk in memory.
fn layer_of(alloc: Global, chunk: AnyChunk) -> Result<Layer<AnyChunk>, NoMemory>
    requires { IsContent (⟦<AnyChunk as Chunk>⟧.content chunk) }
    ensures { IfOk result (λ layer. layer ≡ record { rows = ⟦<AnyChunk as Chunk>⟧.content chunk; disk = false; dead = [] }) }
{
    Ok(Layer {
        chunk: Arc::new(alloc, chunk)?,
        disk: false,
        dead: Arc::new(alloc, Items::new(Vec::new(alloc)))?,
    })
}
