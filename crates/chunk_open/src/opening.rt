//! Opening: the bytes are looked at part by part, and where no part is damaged, they are kept as a chunk.
ghost use Rattle.doc_types.specs.Schemas.{IsSchema};
ghost use Rattle.chunk_open.specs.Opens.{Finds, Opens};

use chunk_damage::BadChunk;
use doc_types::Schema;
use image_check::check_image;
use image_chunk::ImageChunk;
use image_write::MAX_IMAGE;
use srch_base::Or;
use std::alloc::Global;

/// The chunk whose image these bytes of a file are, or where they are damaged first. Nobody writes an image that is longer than
/// `MAX_IMAGE`, and such bytes may count as want of memory.
pub fn open(alloc: Global, image: Vec<u8>, schema: &Schema) -> Result<ImageChunk, Or<BadChunk>>
    requires { IsSchema schema.now }
    ensures { Opens schema.now image.items result }
{
    if image.len() > MAX_IMAGE {
        return Err(Or::NoMemory);
    }
    match look(alloc, image.as_slice(), schema) {
        Ok(()) => match ImageChunk::over(alloc, image) {
            Ok(chunk) => Ok(chunk),
            Err(_) => Err(Or::NoMemory),
        },
        Err(fault) => Err(fault),
    }
}

/// Whether the bytes are an image: where no part of them is damaged, they are that of rows.
fn look(alloc: Global, image: &[u8], schema: &Schema) -> Result<(), Or<BadChunk>>
    requires { IsSchema schema.now }
    ensures { Finds schema.now image.now result }
{
    match check_image(alloc, image, schema) {
        Ok(()) => Ok(()),
        Err(fault) => Err(fault),
    }
}
