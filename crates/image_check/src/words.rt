//! The words: their entries, their order and their posting lists, whose hits take places.
ghost use Rattle.std.specs.Prelude.{◌≡◌, ◌+◌, ◌<◌, ◌≤◌, length};
ghost use Rattle.chunk_damage.specs.Damage.{HasRowOrder, HasTable, HasWordOrder};
ghost use Rattle.image_cover.specs.Covers.{seen};
ghost use Rattle.image_check.specs.Checks.{Checks};
ghost use Rattle.image_check.specs.Begun.{HaveMarks, IsBegun};

use crate::check::{damage, part_of};
use crate::cover::check_cover;
use chunk_damage::{BadChunk, ChunkKind};
use doc_types::Schema;
use image_cover::{Cover, take_lists};
use image_head::Sizes;
use image_words::{bad_entry, unordered_word};
use srch_base::Or;

/// The bytes of a word's entry in the word table.
const ENTRY: usize = 12;

/// Looks at the word table, and then at all that comes behind it.
pub(crate) fn check_words(
    image: &[u8],
    schema: &Schema,
    sizes: &Sizes,
    starts: &[u32],
    cover: &mut Cover,
) -> Result<(), Or<BadChunk>>
    requires begun { IsBegun schema.now image.now sizes.now }
    requires rows { HasRowOrder schema.now image.now }
    requires marks { HaveMarks schema.now image.now starts.now (seen cover.old) }
    ensures { Checks schema.now image.now result }
{
    let table = part_of(image, sizes.table, sizes.dictionary);
    let dictionary = part_of(image, sizes.dictionary, sizes.postings);
    let postings = part_of(image, sizes.postings, image.len());
    match bad_entry(dictionary, table, postings, sizes.words, sizes.rows) {
        Some(number) => {
            let place = sizes.table + number as usize * ENTRY;
            Err(damage(place, ChunkKind::WordTable))
        }
        None => check_order(image, schema, sizes, starts, cover),
    }
}

/// Looks at the order of the words, and then at all that comes behind it.
fn check_order(
    image: &[u8],
    schema: &Schema,
    sizes: &Sizes,
    starts: &[u32],
    cover: &mut Cover,
) -> Result<(), Or<BadChunk>>
    requires begun { IsBegun schema.now image.now sizes.now }
    requires rows { HasRowOrder schema.now image.now }
    requires marks { HaveMarks schema.now image.now starts.now (seen cover.old) }
    requires table { HasTable schema.now image.now }
    ensures { Checks schema.now image.now result }
{
    let dictionary = part_of(image, sizes.dictionary, sizes.postings);
    match unordered_word(dictionary, sizes.words) {
        Some(at) => Err(damage(sizes.dictionary + at, ChunkKind::WordOrder)),
        None => check_lists(image, schema, sizes, starts, cover),
    }
}

/// Looks at the posting lists, and then at the cover of the rows.
fn check_lists(
    image: &[u8],
    schema: &Schema,
    sizes: &Sizes,
    starts: &[u32],
    cover: &mut Cover,
) -> Result<(), Or<BadChunk>>
    requires begun { IsBegun schema.now image.now sizes.now }
    requires rows { HasRowOrder schema.now image.now }
    requires marks { HaveMarks schema.now image.now starts.now (seen cover.old) }
    requires table { HasTable schema.now image.now }
    requires order { HasWordOrder schema.now image.now }
    ensures { Checks schema.now image.now result }
{
    let table = part_of(image, sizes.table, sizes.dictionary);
    let postings = part_of(image, sizes.postings, image.len());
    let width = schema.fields.len() + 1;
    match take_lists(
        postings,
        table,
        sizes.words,
        sizes.rows,
        starts,
        width,
        cover,
    ) {
        Some(at) => Err(damage(sizes.postings + at, ChunkKind::Postings)),
        None => check_cover(image, schema, sizes, starts, cover),
    }
}
