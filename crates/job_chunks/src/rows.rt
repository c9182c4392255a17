//! How many rows the chunks of layers have at most. Their bytes say it, since they are images; these functions read nothing.
ghost use Rattle.std.specs.Prelude.{All};
ghost use Rattle.job_chunks.specs.Chunks.{HasFewRows};

use doc_types::Layer;
use image_chunk::{AnyChunk, ImageChunk};

/// The rows of a chunk stand in its image.
fn chunk_fits(chunk: &ImageChunk)
    ensures { HasFewRows chunk.now.image.0.0 }
{}

fn layer_fits(layer: &Layer<AnyChunk>)
    ensures { HasFewRows layer.now.rows }
{
    chunk_fits(&layer.chunk);
}

/// No layer has more rows than an image has room for.
pub fn rows_fit(layers: &[Layer<AnyChunk>])
    ensures { All (λ layer. HasFewRows layer.rows) layers.now }
{
    for layer in layers {
        layer_fits(layer);
    }
}
