//! The header: the counts of an image, and where its parts begin.
ghost use Rattle.std.specs.Prelude.{◌≡◌, ◌≤◌, IsTrue, ◌↔◌, MatchOption, length};
ghost use Rattle.doc_types.specs.Schemas.{IsSchema};
ghost use Rattle.chunk_damage.specs.Header.{HasMagic, HasSizes, end_at};
ghost use Rattle.image_head.specs.Heads.{AreSizes, Heads};

use crate::fixed::{u16_in, u32_in};
use chunk_damage::{BadChunk, ChunkKind};
use doc_types::Schema;

/// The bytes of a header.
pub(crate) const HEADER: usize = 32;

/// The bytes of a word's entry in the word table.
const ENTRY: usize = 12;

/// What an image begins with.
const MAGIC: &[u8] = b"SRCHUNK1";

/// The counts of an image, and where its parts begin.
#[derive(Clone, Copy)]
pub struct Sizes {
    pub rows: u32,
    pub words: u32,
    pub marks: usize,
    pub table: usize,
    pub dictionary: usize,
    pub postings: usize,
}

/// The sizes that the header says, where these are those of an image of the schema that has so many bytes.
pub fn read_header(image: &[u8], schema: &Schema) -> Result<Sizes, BadChunk>
    requires { IsSchema schema.now }
    ensures { Heads schema.now image.now result }
{
    if !has_magic(image) {
        return Err(BadChunk {
            place: 0,
            kind: ChunkKind::Magic,
        });
    }
    match sizes_in(image, schema) {
        Some(sizes) => Ok(sizes),
        None => Err(BadChunk {
            place: 8,
            kind: ChunkKind::Sizes,
        }),
    }
}

fn has_magic(image: &[u8]) -> bool
    ensures { IsTrue result ↔ HasMagic image.now }
{
    image.starts_with(MAGIC)
}

/// The sizes where they sum up.
fn sizes_in(image: &[u8], schema: &Schema) -> Option<Sizes>
    requires { IsSchema schema.now }
    ensures { MatchOption result (HasSizes schema.now image.now → ⊥) (λ sizes. HasSizes schema.now image.now × AreSizes schema.now image.now sizes) }
{
    if image.len() < HEADER {
        return None;
    }
    if u16_in(image, 12) as usize != schema.fields.len() {
        return None;
    }
    if u16_in(image, 14) as usize != schema.attrs.len() {
        return None;
    }
    let (sizes, end) = places(image, schema);
    if end != image.len() {
        return None;
    }
    if sizes.rows == 0 {
        if u32_in(image, 20) != 0 {
            return None;
        }
    }
    if sizes.words == 0 {
        if u32_in(image, 24) != 0 {
            return None;
        }
        if u32_in(image, 28) != 0 {
            return None;
        }
    }
    Some(sizes)
}

/// Counts and places as the header says them, and where it says that the image ends, whether that fits the bytes or not.
fn places(image: &[u8], schema: &Schema) -> (Sizes, usize)
    requires limits { IsSchema schema.now }
    requires long { 32 ≤ length image.now }
    ensures sizes { AreSizes schema.now image.now result.0 }
    ensures end { result.1 ≡ end_at schema.now image.now }
{
    let rows = u32_in(image, 8);
    let words = u32_in(image, 16);
    let marks = HEADER + rows as usize * (20 + 8 * schema.attrs.len());
    let table = marks + u32_in(image, 20) as usize;
    let dictionary = table + words as usize * ENTRY;
    let postings = dictionary + u32_in(image, 24) as usize;
    let sizes = Sizes {
        rows,
        words,
        marks,
        table,
        dictionary,
        postings,
    };
    (sizes, postings + u32_in(image, 28) as usize)
}
