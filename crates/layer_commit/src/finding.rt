//! The rows of layers by their ids.
ghost use Rattle.std.specs.Prelude.{◌≡◌, ◌<◌, ◌==◌, AllPairs};
ghost use Rattle.std.specs.List.{list_any};
ghost use Rattle.layer_commit.specs.steps.Finding.{has_living, living_row, lives};

use doc_types::{Chunk, Layer};

/// Whether the row is among the dead ones, which ascend.
pub fn is_dead(dead: &[u32], row: u32) -> bool
    requires { AllPairs (λ row later. row < later) dead.now }
    ensures { result ≡ list_any (λ d. d == row) dead.now }
{
    dead.binary_search(&row).is_ok()
}

/// The number of the row that lives and has the id, if there is one.
pub(crate) fn living_row<C: Chunk>(layer: &Layer<C>, id: u64) -> Option<u32>
    ensures { result ≡ living_row layer.now id }
{
    let row = layer.chunk.find(id)?;
    if is_dead(layer.dead.as_slice(), row) {
        return None;
    }
    Some(row)
}

/// Whether a row of the layer that lives has the id.
fn has_living<C: Chunk>(layer: &Layer<C>, id: u64) -> bool
    ensures { result ≡ has_living layer.now id }
{
    living_row(layer, id).is_some()
}

/// Whether a row of the layers that lives has the id.
pub(crate) fn lives<C: Chunk>(layers: &[Layer<C>], id: u64) -> bool
    ensures { result ≡ lives layers.now id }
{
    layers.iter().any(|layer| has_living(layer, id))
}
