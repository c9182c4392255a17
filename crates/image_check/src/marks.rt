//! The marks of the rows, which lay out a place for each position.
//!
//! What takes a place has a byte of its own: a row, a boundary, a hit. So an image has no more places than bytes; where marks claim
//! more, some row in front of those that aren't laid out isn't covered.
ghost use Rattle.chunk_damage.specs.Damage.{HasRowOrder};
ghost use Rattle.image_check.specs.Checks.{Checks};
ghost use Rattle.image_check.specs.Begun.{IsBegun};

use crate::check::{damage, part_of};
use crate::words::check_words;
use bit_lists::BitList;
use chunk_damage::{BadChunk, ChunkKind};
use doc_types::{NO_ROW, Schema};
use image_cover::Cover;
use image_head::Sizes;
use image_marks::read_part;
use srch_base::Or;
use std::alloc::Global;

/// Looks at marks, and then at all that comes behind them.
pub(crate) fn check_marks(
    alloc: Global,
    image: &[u8],
    schema: &Schema,
    sizes: &Sizes,
) -> Result<(), Or<BadChunk>>
    requires begun { IsBegun schema.now image.now sizes.now }
    requires before { HasRowOrder schema.now image.now }
    ensures { Checks schema.now image.now result }
{
    let part = part_of(image, sizes.marks, sizes.table);
    let mut starts = Vec::new(alloc);
    let mut cover = Cover {
        taken: BitList::new(alloc),
        least: NO_ROW,
    };
    match read_part(
        alloc,
        image,
        part,
        schema,
        sizes.rows,
        image.len(),
        &mut starts,
        &mut cover,
    ) {
        Ok(None) => check_words(image, schema, sizes, starts.as_slice(), &mut cover),
        Ok(Some(at)) => Err(damage(sizes.marks + at, ChunkKind::Marks)),
        Err(_) => Err(Or::NoMemory),
    }
}
