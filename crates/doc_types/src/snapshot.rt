//! Layers of chunks, as a reader holds them. A commit adds a layer and marks rows of earlier ones as dead; a snapshot never
//! changes, so a reader that has one sees one state. Contracts see layers as lists of rows, without the kind of their chunks.
ghost use Rattle.std.specs.Prelude.{◌≡◌, length};
ghost use Rattle.std.specs.List.{count_by};
ghost use Rattle.std.specs.FinMap as finite;
ghost use Rattle.doc_types.specs.Snapshots.{live, living};

use crate::chunk::Chunk;
use srch_base::Items;
use std::alloc::Global;
use std::marker::Model;
use std::sync::Arc;

/// A chunk of a snapshot, with the rows of it that are dead. Contracts see the chunk as its rows.
#[derive(Drop)]
pub struct Layer<C: Chunk> {
    pub chunk: Arc<C, Global>,
    /// The chunk is an image of a file.
    pub disk: bool,
    /// The rows that were killed, or put anew in a later layer, ascending. A commit that kills none of the layer's rows shares them.
    pub dead: Arc<Items<u32>, Global>,
}

impl<C: Chunk> Model for Layer<C> {
    ghost use Rattle.std.specs.Arc.{arc_value};
    ghost use Rattle.doc_types.specs.Snapshots.{LayerValue, IsLayer};

    ghost Value = { LayerValue };

    ghost view = { λ a. record { rows = C.content (arc_value a.chunk); disk = a.disk; dead = arc_value a.dead } };

    ghost invariant = { λ a. IsLayer (record { rows = C.content (arc_value a.chunk); disk = a.disk; dead = arc_value a.dead }) };
}

impl<C: Chunk> Layer<C> {
    /// How many of its rows live.
    pub fn live_count(&self) -> u32
        ensures { result ≡ length (living self.now) }
    {
        let chunk: &C = &self.chunk;
        let dead: &Items<u32> = &self.dead;
        chunk.rows() - dead.len() as u32
    }
}

/// The state of an index after a commit: layers of rows. Contracts see it without the kind of its chunks.
#[derive(Drop)]
pub struct Snapshot<C: Chunk> {
    /// The number of the last commit.
    pub number: u64,
    /// How often layers were flushed to a disk or merged there; what a commit does in memory leaves it.
    pub shape: u64,
    pub layers: Items<Layer<C>>,
}

impl<C: Chunk> Model for Snapshot<C> {
    ghost use Rattle.doc_types.specs.Snapshots.{SnapshotValue, AreLayers};

    ghost Value = { SnapshotValue };

    ghost view = { λ a. record { number = a.number; shape = a.shape; layers = a.layers } };

    ghost invariant = { λ a. AreLayers a.layers };
}

impl<C: Chunk> Snapshot<C> {
    /// How many chunks are images of files.
    pub fn disk_chunks(&self) -> u32
        ensures { result ≡ count_by (λ layer. layer.disk) self.now.layers }
    {
        let mut count = 0;
        for layer in self.layers.as_slice() {
            if layer.disk {
                count += 1;
            }
        }
        count
    }

    /// How many rows live.
    pub fn live_count(&self) -> u32
        ensures { result ≡ finite.len (live self.now) }
    {
        let mut count = 0;
        for layer in self.layers.as_slice() {
            count += layer.live_count();
        }
        count
    }
}
