//! The head of an image, and what each look at a part begins from.
ghost use Rattle.std.specs.Prelude.{◌≡◌, ◌<◌, ◌≤◌, ◌^◌, length, slice_range};
ghost use Rattle.srch_base.specs.declared.faults.Or.{Or};
ghost use Rattle.doc_types.specs.Schemas.{IsSchema};
ghost use Rattle.image_check.specs.Checks.{Checks};

use crate::marks::check_marks;
use chunk_damage::{BadChunk, ChunkKind};
use doc_types::Schema;
use image_head::{read_header, unordered_row};
use image_write::MAX_IMAGE;
use srch_base::Or;
use std::alloc::Global;

/// The bytes of a header.
const HEADER: usize = 32;

/// Whether the bytes are the image of some rows of the schema, or where they are damaged first. Bytes above `MAX_IMAGE` are not
/// looked at: nobody writes so many.
pub fn check_image(alloc: Global, image: &[u8], schema: &Schema) -> Result<(), Or<BadChunk>>
    requires { IsSchema schema.now }
    ensures { Checks schema.now image.now result }
{
    if image.len() > MAX_IMAGE {
        return Err(Or::NoMemory);
    }
    let sizes = match read_header(image, schema) {
        Ok(sizes) => sizes,
        Err(bad) => return Err(Or::Fault(bad)),
    };
    match unordered_row(image, schema, sizes.rows) {
        Some(row) => {
            let place = HEADER + row as usize * (20 + 8 * schema.attrs.len());
            Err(damage(place, ChunkKind::RowOrder))
        }
        None => check_marks(alloc, image, schema, &sizes),
    }
}

/// Damage of this kind at this place.
pub(crate) fn damage(place: usize, kind: ChunkKind) -> Or<BadChunk>
    requires { place < 2 ^ 32 }
    ensures { result ≡ Or.Fault (record { place = place; kind = kind }) }
{
    Or::Fault(BadChunk {
        place: place as u32,
        kind,
    })
}

/// The bytes from one place up to another.
#[inline(always)]
pub(crate) fn part_of(bytes: &[u8], from: usize, end: usize) -> &[u8]
    requires order { from ≤ end }
    requires within { end ≤ length bytes.now }
    ensures { result.now ≡ slice_range bytes.now from end }
{
    &bytes[from..end]
}
