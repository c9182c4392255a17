//! How much an index has room for on the disk, and how much of it the chunks take that a job leaves there.
ghost use Rattle.std.specs.Prelude.{◌≡◌, ◌++◌, ◌∷◌, [], List, IfOk};
ghost use Rattle.std.specs.List.{filter};
ghost use Rattle.doc_types.specs.Snapshots.{LayerValue};
ghost use Rattle.image_join.specs.JoinedImages.{HasImageLength};
ghost use Rattle.job_chunks.specs.steps.Making.{AreStaying, stays};

use doc_types::{Chunk, Layer};
use image_join::CopyBytes;
use srch_base::NoMemory;
use step_history::Job;

/// The most bytes that the images of an index's chunks have together.
pub const MAX_IMAGES: u64 = 536_870_912;

/// The most chunks that an index has on the disk.
pub(crate) const MOST_CHUNKS: u64 = 16;

/// What stays on the disk.
#[derive(Clone, Copy)]
pub(crate) struct Staying {
    pub(crate) chunks: u64,
    pub(crate) bytes: u64,
}

/// Whether the job leaves the layer on the disk.
fn stays<C: Chunk>(layer: &Layer<C>, job: Job) -> bool
    ensures { result ≡ stays job layer.now }
{
    match job {
        Job::Flush => layer.disk,
        Job::Optimize => false,
    }
}

/// How many bytes the image of the layer's chunk takes.
fn image_size<C: CopyBytes>(layer: &Layer<C>) -> usize
    ensures { HasImageLength layer.now.rows result }
{
    layer.chunk.size()
}

/// What stays with the layer too. No index has more than 64 bits count.
fn with_layer<C: CopyBytes>(
    staying: Staying,
    layer: &Layer<C>,
    job: Job,
) -> Result<Staying, NoMemory>
    ensures { IfOk result (λ after. (layers : List LayerValue) → AreStaying layers staying → AreStaying (layers ++ filter (stays job) (layer.now ∷ [])) after) }
{
    if !stays(layer, job) {
        return Ok(staying);
    }
    let size = image_size(layer) as u64;
    let chunks = staying.chunks.checked_add(1).ok_or(NoMemory)?;
    let bytes = staying.bytes.checked_add(size).ok_or(NoMemory)?;
    Ok(Staying { chunks, bytes })
}

/// What stays of these layers.
pub(crate) fn staying_of<C: CopyBytes>(layers: &[Layer<C>], job: Job) -> Result<Staying, NoMemory>
    ensures { IfOk result (AreStaying (filter (stays job) layers.now)) }
{
    let mut staying = Staying {
        chunks: 0,
        bytes: 0,
    };
    for layer in layers {
        staying = with_layer(staying, layer, job)?;
    }
    Ok(staying)
}
