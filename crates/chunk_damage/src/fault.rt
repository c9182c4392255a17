//! The damage of an image. Its parts are looked at in the order of `ChunkKind`, each in the order of its bytes, and the first that
//! is wrong counts.
use thiserror::Error;

/// The bytes are no image of a chunk of the schema: they are damaged first at this place.
#[derive(Clone, Copy, Debug, PartialEq, Eq, Error)]
#[error("{kind} at {place}")]
pub struct BadChunk {
    pub place: u32,
    pub kind: ChunkKind,
}

/// How they are damaged there.
#[derive(Clone, Copy, Debug, PartialEq, Eq, Error)]
pub enum ChunkKind {
    /// They don't begin with the magic.
    #[error("magic")]
    Magic,
    /// The header's counts aren't those of the schema, or its lengths don't sum up to that of the bytes.
    #[error("sizes")]
    Sizes,
    /// A row's id isn't above that of the row before.
    #[error("row order")]
    RowOrder,
    /// The marks of a row aren't where the row says, or break the layout.
    #[error("marks")]
    Marks,
    /// A word's entry doesn't say where the word and its posting list stand, or how many rows have it.
    #[error("word table")]
    WordTable,
    /// A word of the dictionary isn't text within the limit, or isn't above the word before.
    #[error("word order")]
    WordOrder,
    /// A word's posting list breaks the layout.
    #[error("postings")]
    Postings,
    /// A row's words and boundaries don't cover its positions.
    #[error("cover")]
    Cover,
}
