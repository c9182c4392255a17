//! Ids that live in two chunks. Ids ascend in a chunk, so two chunks are gone over side by side, and each of their rows is looked at
//! once: a cursor goes over the one as far as the ids of the other have come.
ghost use Rattle.std.specs.Prelude.{◌≡◌, ◌<◌, List, [], ◌∷◌, All, Some, length, slice_get};
ghost use Rattle.doc_types.specs.Snapshots.{IsLayer};
ghost use Rattle.doc_types.specs.declared.documents.DocRow.{DocRow};
ghost use Rattle.layer_commit.specs.steps.Finding.{has_living};
ghost use Rattle.store_steps.specs.Damage.{again_in, is_again};
ghost use Rattle.chunk_files.specs.steps.Merging.{AreBelow, IsFirst, sooner};

use doc_types::{Chunk, Layer};
use image_chunk::AnyChunk;
use layer_commit::is_dead;

/// The first row of a layer that lives though its id lives in layers before.
pub(crate) fn again_in(before: &[Layer<AnyChunk>], layer: &Layer<AnyChunk>) -> Option<u32>
    requires before { All IsLayer before.now }
    ensures { result ≡ again_in before.now layer.now }
{
    let mut first = None;
    'layers: for other in before {
        first = sooner(first, again_beside(other, layer));
    }
    first
}

/// The lower one of two rows, where there are any.
fn sooner(first: Option<u32>, other: Option<u32>) -> Option<u32>
    ensures { result ≡ sooner first other }
{
    let Some(row) = first else {
        return other;
    };
    match other {
        Some(its) => Some(row.min(its)),
        None => first,
    }
}

/// The first row of a layer that lives though its id lives in another one.
fn again_beside(other: &Layer<AnyChunk>, layer: &Layer<AnyChunk>) -> Option<u32>
    requires { IsLayer other.now }
    ensures { result ≡ again_in (other.now ∷ []) layer.now }
{
    let mut at = 0;
    'rows: for row in 0..layer.chunk.rows() {
        let id = layer.chunk.id(row);
        at = row_from(other, at, id);
        if is_again(other, at, layer, row, id) {
            return Some(row);
        }
    }
    None
}

/// The first row of a layer whose id isn't below this one. The rows before a place are known to have ids below it.
fn row_from(layer: &Layer<AnyChunk>, from: u32, id: u64) -> u32
    requires { AreBelow id from layer.now.rows }
    ensures { IsFirst id result layer.now.rows }
{
    let rows = layer.chunk.rows();
    'rows: for row in from..rows {
        if layer.chunk.id(row) >= id {
            return row;
        }
    }
    rows
}

/// Whether a row lives, and its id in another layer, whose first row that isn't below it stands at this place.
fn is_again(other: &Layer<AnyChunk>, at: u32, layer: &Layer<AnyChunk>, row: u32, id: u64) -> bool
    requires other { IsLayer other.now }
    requires first { IsFirst id at other.now.rows }
    requires row { row < length layer.now.rows }
    ensures { (found : DocRow) → slice_get layer.now.rows row ≡ Some found → found.doc.id ≡ id → result ≡ is_again (other.now ∷ []) layer.now (row, found) }
{
    if !has_living(other, at, id) {
        return false;
    }
    !is_dead(layer.dead.as_slice(), row)
}

/// Whether a row of the layer that lives has the id, where the first row that isn't below it stands at this place.
fn has_living(layer: &Layer<AnyChunk>, at: u32, id: u64) -> bool
    requires { IsFirst id at layer.now.rows }
    ensures { result ≡ has_living layer.now id }
{
    if at >= layer.chunk.rows() {
        return false;
    }
    if layer.chunk.id(at) != id {
        return false;
    }
    !is_dead(layer.dead.as_slice(), at)
}
