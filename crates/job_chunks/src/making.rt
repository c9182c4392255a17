//! The chunk of the rows that a job takes. Whether there is room for it is told before it takes memory that would be in vain: how
//! many chunks there would be before anything is joined, and how many bytes as soon as the parts of the image are known.
ghost use Rattle.std.specs.Prelude.{◌≡◌, ◌<◌, ◌≤◌, ◌+◌, ◌^◌, All, IfOk, length};
ghost use Rattle.doc_types.specs.Snapshots.{all_living};
ghost use Rattle.image_join.specs.JoinedImages.{IsJoinedImage};
ghost use Rattle.image_parts.specs.Images.{HasZones};
ghost use Rattle.layer_joins.specs.Joins.{AreApart, AreOfOne};
ghost use Rattle.job_chunks.specs.Limits.{chunks_of};
ghost use Rattle.job_chunks.specs.declared.limits.TheConstants.{MAX_IMAGES};
ghost use Rattle.job_chunks.specs.steps.Making.{IsMade, Joins, Makes};

use crate::limits::{MAX_IMAGES, MOST_CHUNKS, Staying};
use commit_outcomes::{Full, FullKind};
use doc_types::Layer;
use image_chunk::{AnyChunk, ImageChunk};
use image_join::{JoinedImage, join_or_tell};
use layer_commit::live_count;
use srch_base::NoMemory;
use std::alloc::Global;

/// What became of the rows that a job takes.
#[derive(Drop)]
pub(crate) enum Made {
    /// Their chunk, if there are some.
    Chunk(Option<AnyChunk>),
    /// There is no room for it.
    Full(Full),
}

/// How many chunks become of the rows of the layers that live.
fn added<C: doc_types::Chunk>(layers: &[Layer<C>]) -> u64
    requires { length layers.now < 2 ^ 16 }
    ensures { result ≡ chunks_of (all_living layers.now) }
{
    if live_count(layers) == 0 { 0 } else { 1 }
}

/// The zones of the rows of layers that live have room in 16 bits, as they have in the images of these.
fn layers_fit(layers: &[Layer<AnyChunk>])
    ensures { All HasZones (all_living layers.now) }
{
    for layer in layers {
        layer_fits(layer);
    }
}

fn layer_fits(layer: &Layer<AnyChunk>)
    ensures { All HasZones layer.now.rows }
{
    layer.chunk.zones_fit();
}

/// The chunk over the image of the rows of the layers that live, beside so many bytes of others.
fn chunk_over(
    alloc: Global,
    layers: &[Layer<AnyChunk>],
    image: Vec<u8>,
    at: u64,
) -> Result<AnyChunk, NoMemory>
    requires joined { IsJoinedImage (all_living layers.now) image.items }
    requires short { length image.items ≤ 536870912 }
    requires room { at + length image.items ≤ MAX_IMAGES }
    ensures { IfOk result (IsMade (all_living layers.now) at) }
{
    layers_fit(layers);
    let chunk = ImageChunk::over(alloc, image)?;
    chunk.zones_fit();
    Ok(chunk)
}

/// The chunk of the rows of the layers that live, of which there are some, unless the images would have too many bytes.
fn joined(alloc: Global, layers: &[Layer<AnyChunk>], at: u64) -> Result<Made, NoMemory>
    requires of { AreOfOne (all_living layers.now) }
    requires apart { AreApart (all_living layers.now) }
    requires some { 0 < length (all_living layers.now) }
    ensures { IfOk result (Joins (all_living layers.now) at) }
{
    match join_or_tell(alloc, layers)? {
        JoinedImage::TooLong { bytes } => Ok(Made::Full(Full {
            what: FullKind::Images,
            at,
            need: bytes,
        })),
        JoinedImage::Whole(image) => {
            let need = image.len() as u64;
            if at.saturating_add(need) > MAX_IMAGES {
                return Ok(Made::Full(Full {
                    what: FullKind::Images,
                    at,
                    need,
                }));
            }
            let chunk = chunk_over(alloc, layers, image, at)?;
            Ok(Made::Chunk(Some(chunk)))
        }
    }
}

/// The chunk of the rows of the layers that live, if there are some, unless there is no room for it beside what stays.
pub(crate) fn made_of(
    alloc: Global,
    layers: &[Layer<AnyChunk>],
    staying: Staying,
) -> Result<Made, NoMemory>
    requires few { length layers.now < 2 ^ 16 }
    requires of { AreOfOne (all_living layers.now) }
    requires apart { AreApart (all_living layers.now) }
    ensures { IfOk result (Makes (all_living layers.now) staying) }
{
    let need = added(layers);
    if staying.chunks.saturating_add(need) > MOST_CHUNKS {
        return Ok(Made::Full(Full {
            what: FullKind::Chunks,
            at: staying.chunks,
            need,
        }));
    }
    if need > 0 {
        return joined(alloc, layers, staying.bytes);
    }
    if staying.bytes > MAX_IMAGES {
        return Ok(Made::Full(Full {
            what: FullKind::Images,
            at: staying.bytes,
            need,
        }));
    }
    Ok(Made::Chunk(None))
}
