//! Chunks as the layers of a snapshot: what a commit puts becomes one, several are joined by the bytes of their images, and what
//! is joined can be joined again.
ghost use Rattle.std.specs.Prelude.{All};
ghost use Rattle.doc_types.specs.Snapshots.{all_living};
ghost use Rattle.image_parts.specs.Images.{HasZones};

use crate::image_chunk::ImageChunk;
use doc_types::{Cursor, Doc, Layer};
use image_join::{CopyBytes, join};
use layer_commit::MakeChunk;
use layer_joins::JoinChunk;
use srch_base::NoMemory;
use std::alloc::Global;

/// The one type of chunks that a published snapshot is made of: whatever keeps the bytes, the image answers.
pub type AnyChunk = ImageChunk;

/// What was made of rows can be copied from its image.
impl CopyBytes for ImageChunk {
    fn attrs(&self) -> u16 {
        ImageChunk::attrs(self)
    }

    fn size(&self) -> usize {
        self.as_bytes().len()
    }

    fn start_at(&self, n: u32) -> Cursor {
        self.front(n)
    }

    fn list_bytes(&self, n: u32) -> &[u8] {
        ImageChunk::list_bytes(self, n)
    }

    fn count_at(&self, n: u32) -> u32 {
        self.count_of(n)
    }

    #[inline]
    fn head_at(&self, n: u32) -> u64 {
        ImageChunk::head_at(self, n)
    }

    fn near_end(&self, n: u32) -> Cursor {
        ImageChunk::near_end(self, n)
    }

    fn hit_bytes(&self, cursor: &Cursor) -> &[u8] {
        ImageChunk::hit_bytes(self, cursor)
    }

    fn marks_of(&self, row: u32) -> &[u8] {
        ImageChunk::marks_of(self, row)
    }
}

/// What a commit puts is kept in memory.
impl MakeChunk for ImageChunk {
    fn of_docs(alloc: Global, docs: &[&Doc], number: u64) -> Result<ImageChunk, NoMemory> {
        ImageChunk::of_docs(alloc, docs, number)
    }
}

/// What is joined is kept in memory.
impl JoinChunk for ImageChunk {
    fn join(alloc: Global, layers: &[Layer<ImageChunk>]) -> Result<ImageChunk, NoMemory> {
        layers_fit(layers);
        let bytes = join(alloc, layers)?;
        let chunk = ImageChunk::over(alloc, bytes)?;
        Ok(chunk)
    }
}

/// The zones of the rows of layers that live have room in 16 bits, as they have in the images of these.
fn layers_fit(layers: &[Layer<ImageChunk>])
    ensures { All HasZones (all_living layers.now) }
{
    for layer in layers {
        layer_fits(layer);
    }
}

fn layer_fits(layer: &Layer<ImageChunk>)
    ensures { All HasZones layer.now.rows }
{
    layer.chunk.zones_fit();
}
