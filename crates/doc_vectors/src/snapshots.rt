//! How many rows of a snapshot live and how many of its chunks are on the disk, over layers with dead rows.
ghost use Rattle.std.specs.Prelude.{◌≡◌, ◌<◌, IfSome, All, AllPairs, length};
ghost use Rattle.doc_types.specs.Snapshots.{IsLayer};

use crate::documents::rows_of;
use crate::tables::DOCUMENTS;
use doc_types::{Chunk, Layer, PlainChunk, Snapshot};
use srch_base::Items;
use std::alloc::Global;
use std::sync::Arc;

/// So many documents of a table, on the disk or in memory, of which these rows are dead.
fn layer(
    alloc: Global,
    documents: &str,
    count: u32,
    dead: &[u32],
    disk: bool,
) -> Option<Layer<PlainChunk>>
    requires ascend { AllPairs (λ row later. row < later) dead.now }
    requires below { All (λ row. row < count) dead.now }
    ensures is { IfSome result IsLayer }
    ensures long { IfSome result (λ layer. length layer.rows ≡ count) }
{
    let rows = rows_of(alloc, documents, 3, 2)?;
    let chunk = PlainChunk::build(alloc, rows).ok()?;
    if chunk.rows() != count {
        return None;
    }
    let dead = Vec::from_slice(alloc, dead).ok()?;
    let chunk = Arc::new(alloc, chunk).ok()?;
    let dead = Arc::new(alloc, Items::new(dead)).ok()?;
    Some(Layer { chunk, disk, dead })
}

/// The documents of the table on the disk, of which the first, the fifth and the last are dead, and a layer without rows in memory.
fn the_snapshot(alloc: Global) -> Option<Snapshot<PlainChunk>> {
    let full = layer(alloc, DOCUMENTS, 10, &[0, 4, 9], true)?;
    let empty = layer(alloc, "", 0, &[], false)?;
    let layers = Vec::from_array(alloc, [full, empty]).ok()?;
    Some(Snapshot {
        number: 9,
        shape: 1,
        layers: Items::new(layers),
    })
}

/// None where other rows of it live, or other chunks are on the disk, than there are.
pub(crate) fn a_snapshot_counts(alloc: Global) -> Option<()> {
    let snapshot = the_snapshot(alloc)?;
    let layers = snapshot.layers.as_slice().len();
    (snapshot.live_count() == 7 && snapshot.disk_chunks() == 1 && layers == 2).then_some(())
}
