//! Keywords. A keyword carries the limits that stand over it, and its query position: 1, 2, 3 and so on in the order of the
//! text.
use sqlite_items::Items;
use srch_base::Word;

/// Where a keyword may stand.
#[derive(Drop)]
pub struct Limit {
    /// The fields, the first of the schema by the lowest bit.
    pub fields: u32,
    /// The greatest position; 65,535 is no limit.
    pub positions: u32,
    /// The numbers of the zones; an empty list is no limit.
    pub zones: Items<u16>,
}

/// A keyword.
#[derive(Drop)]
pub struct Key {
    /// Its query position.
    pub query: u16,
    pub word: Word,
    pub limit: Limit,
    /// It is the first word of its field.
    pub start: bool,
    /// It is the last word of its field.
    pub end: bool,
    /// It stands for each word that begins with its own.
    pub prefix: bool,
}

/// How the keywords of a quoted piece are looked for.
#[derive(Clone, Copy, PartialEq, Eq)]
pub enum How {
    /// One after the other.
    Phrase,
    /// `~N`.
    Within(u32),
    /// `/k`.
    AtLeast(u32),
    /// `/0.d`.
    Share { digits: u32, places: u8 },
}
