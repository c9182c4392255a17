//! The words of a field. A word has the position after the word before it, or two further where the end of a sentence or a
//! paragraph lies between; a span tells from which word to which one an element of a zone reaches.
ghost use Rattle.std.specs.Prelude.{◌≡◌};
ghost use Rattle.doc_types.specs.Documents.{precedes, step};

use srch_base::{Items, Word};
use std::alloc::AllocError;

/// The greatest position of a word in a field.
pub const MAX_POSITION: u32 = 65_535;

/// The most characters of a word; a longer run of characters is cut.
pub const MAX_WORD_CHARS: usize = 42;

/// The most bytes of a word: four for each of its characters.
pub const MAX_WORD_BYTES: usize = MAX_WORD_CHARS * 4;

/// The tokens of a field: its words by ascending position, and where its zones lie.
#[derive(Drop, PartialEq, Eq)]
pub struct FieldTokens {
    pub words: Items<TokenWord>,
    /// The spans that hold a word, by first position, last position and zone.
    pub spans: Items<ZoneSpan>,
}

/// A word of a field, at its place.
#[derive(Drop, PartialEq, Eq)]
pub struct TokenWord {
    pub word: Word,
    /// From 1. A boundary takes a position of its own.
    pub position: u32,
    /// What stands between the word before and this one.
    pub gap: Gap,
}

/// The boundary before a word.
#[derive(Clone, Copy, PartialEq, Eq)]
pub enum Gap {
    /// The words are of one sentence.
    None,
    /// A sentence ends between them.
    Sentence,
    /// A paragraph ends between them, and with it a sentence.
    Paragraph,
}

impl Gap {
    /// How many positions a word with this boundary before it stands after the word before.
    pub fn step(self) -> u32
        ensures { result ≡ step self }
    {
        match self {
            Gap::None => 1,
            Gap::Sentence | Gap::Paragraph => 2,
        }
    }
}

/// The words of a field that stand in one element of a zone.
#[derive(Clone, Copy, PartialEq, Eq)]
pub struct ZoneSpan {
    /// The zone's place among the zones of the index.
    pub zone: u16,
    /// The position of its first word.
    pub first: u32,
    /// The position of its last word.
    pub last: u32,
}

impl ZoneSpan {
    /// Whether it stands before the other in a list of spans.
    pub fn precedes(&self, other: &ZoneSpan) -> bool
        ensures { result ≡ precedes self.now other.now }
    {
        (self.first, self.last, self.zone) < (other.first, other.last, other.zone)
    }
}

/// A copy equals what it copies.
impl Clone for TokenWord {
    ghost is_clone = { λ a b. b ≡ a };

    fn clone(&self) -> Result<Self, AllocError> {
        Ok(TokenWord {
            word: self.word.clone()?,
            position: self.position,
            gap: self.gap,
        })
    }
}

/// A copy equals what it copies.
impl Clone for FieldTokens {
    ghost is_clone = { λ a b. b ≡ a };

    fn clone(&self) -> Result<Self, AllocError> {
        Ok(FieldTokens {
            words: self.words.clone()?,
            spans: self.spans.clone()?,
        })
    }
}
