//! The cover: each position of each row has one owner.
ghost use Rattle.chunk_damage.specs.Damage.{HasRowOrder, HasTable, HasWordOrder};
ghost use Rattle.image_cover.specs.Covers.{seen};
ghost use Rattle.image_check.specs.Checks.{Checks};
ghost use Rattle.image_check.specs.Begun.{HaveLists, IsBegun};

use crate::check::damage;
use chunk_damage::{BadChunk, ChunkKind};
use covered_rows::uncovered_row;
use doc_types::Schema;
use image_cover::Cover;
use image_head::Sizes;
use srch_base::Or;

/// The bytes of a header.
const HEADER: usize = 32;

/// Looks for a row that isn't covered.
pub(crate) fn check_cover(
    image: &[u8],
    schema: &Schema,
    sizes: &Sizes,
    starts: &[u32],
    cover: &Cover,
) -> Result<(), Or<BadChunk>>
    requires begun { IsBegun schema.now image.now sizes.now }
    requires rows { HasRowOrder schema.now image.now }
    requires table { HasTable schema.now image.now }
    requires order { HasWordOrder schema.now image.now }
    requires lists { HaveLists schema.now image.now starts.now (seen cover.now) }
    ensures { Checks schema.now image.now result }
{
    let width = schema.fields.len() + 1;
    match uncovered_row(starts, width, sizes.rows, cover) {
        Some(row) => {
            let place = HEADER + row as usize * (20 + 8 * schema.attrs.len());
            Err(damage(place, ChunkKind::Cover))
        }
        None => Ok(()),
    }
}
