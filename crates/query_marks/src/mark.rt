//! Marks: what the grammar sees of a text.
use crate::fault::Wrong;
use query_tree::{How, Key};
use sqlite_items::{Boxed, Items};

/// What a piece is to the grammar.
#[derive(Drop)]
pub enum Sign {
    /// A word, or a quoted piece of one word without a number.
    Bare(Boxed<Key>),
    /// A quoted piece of several words without a number.
    Phrase(Items<Key>),
    /// A quoted piece with a number.
    Loose(Items<Key>, How),
    Open,
    Close,
    Or,
    /// `<<`.
    Before,
    Not,
    Maybe,
    Sentence,
    Paragraph,
    Near(u32),
    /// A limit that makes no node.
    Limits,
    /// ZONESPAN, with the numbers of its zones.
    Spans(Items<u16>),
    /// `@@relaxed`.
    Relaxed,
    /// A `"` that no other follows.
    Unclosed,
    /// The text's end.
    End,
}

/// A piece as the grammar sees it.
#[derive(Drop)]
pub struct Mark {
    /// The offset of its first byte.
    pub at: u32,
    pub sign: Sign,
    /// What is wrong with it by itself, the first by the order of the kinds.
    pub wrong: Option<Boxed<Wrong>>,
}
