//! Chunks of which layers can be put together.
ghost use Rattle.std.specs.Prelude.{◌<◌, IfOk, length};
ghost use Rattle.doc_types.specs.Snapshots.{all_living};
ghost use Rattle.layer_joins.specs.Joins.{AreApart, AreOfOne, AreSorted};

use crate::copying::sorted_copies;
use doc_types::{Chunk, Layer, PlainChunk};
use srch_base::NoMemory;
use std::alloc::Global;

/// A chunk in memory that can be made of layers of such chunks.
pub trait JoinChunk: Chunk {
    /// A chunk of the rows of some layers that live, in the order of their ids.
    fn join(alloc: Global, layers: &[Layer<Self>]) -> Result<Self, NoMemory>
        requires of { AreOfOne (all_living layers.now) }
        requires apart { AreApart (all_living layers.now) }
        requires some { 0 < length (all_living layers.now) }
        ensures { IfOk result (λ chunk. AreSorted (all_living layers.now) (Self.content chunk)) };
}

/// Plain chunks copy the rows, and index them anew.
impl JoinChunk for PlainChunk {
    fn join(alloc: Global, layers: &[Layer<PlainChunk>]) -> Result<PlainChunk, NoMemory> {
        let rows = sorted_copies(alloc, layers)?;
        PlainChunk::build(alloc, rows)
    }
}
