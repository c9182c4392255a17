//! Skip entries: cursors at each 64th row of the words that have more, by word and row. They are what a search for a row leaps to.
ghost use Rattle.std.specs.Prelude.{◌<◌, ◌≤◌, All, OnOk, length};
ghost use Rattle.image_chunk.specs.Places.{StandsIn};

use crate::image_chunk::ImageChunk;
use doc_types::{Chunk, Cursor};
use srch_base::NoMemory;

/// How many rows lie between two skip entries of a word.
pub(crate) const SKIP: u32 = 64;

/// Appends a cursor at each 64th row of a word.
pub(crate) fn put_skips(
    chunk: &ImageChunk,
    number: u32,
    into: &mut Vec<Cursor>,
) -> Result<(), NoMemory>
    requires word { number < length chunk.now.image.0.1 }
    requires all { All (StandsIn chunk.now.image.0.0 chunk.now.image.0.1 chunk.now.bytes) into.old.items }
    ensures { OnOk result (All (StandsIn chunk.now.image.0.0 chunk.now.image.0.1 chunk.now.bytes) into.new.items) }
{
    let count = chunk.count_of(number);
    if count <= SKIP {
        return Ok(());
    }
    let mut cursor = chunk.front(number);
    'rows: for passed in 1..count {
        chunk.advance(&mut cursor);
        put_skip(chunk, passed, cursor, into)?;
    }
    Ok(())
}

/// Appends a cursor that has passed so many rows, if they are a multiple of 64.
fn put_skip(
    chunk: &ImageChunk,
    passed: u32,
    cursor: Cursor,
    into: &mut Vec<Cursor>,
) -> Result<(), NoMemory>
    requires stands { StandsIn chunk.now.image.0.0 chunk.now.image.0.1 chunk.now.bytes cursor }
    requires all { All (StandsIn chunk.now.image.0.0 chunk.now.image.0.1 chunk.now.bytes) into.old.items }
    ensures { OnOk result (All (StandsIn chunk.now.image.0.0 chunk.now.image.0.1 chunk.now.bytes) into.new.items) }
{
    if passed % SKIP == 0 {
        into.push(cursor)?;
    }
    Ok(())
}

/// How many skip entries lie before a row of a word or at it, by halving.
pub(crate) fn before(skips: &[Cursor], word: u32, row: u32) -> usize
    ensures { result ≤ length skips.now }
{
    let mut low = 0;
    let mut high = skips.len();
    while low < high {
        let middle = low + (high - low) / 2;
        let skip = skips[middle];
        if skip.word < word || skip.word == word && skip.index <= row {
            low = middle + 1;
        } else {
            high = middle;
        }
    }
    low
}
