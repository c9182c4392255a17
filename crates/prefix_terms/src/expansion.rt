//! The words that the prefixes of a query stand for.
use srch_base::{Items, Word};

/// The most words that the prefixes of a query have together.
pub const MAX_PREFIX_WORDS: usize = 1_024;

/// The words that the prefixes of a query stand for.
#[derive(Drop)]
pub struct Expansion {
    /// For each prefix, by its query position: the words of living rows that begin so, ascending by their bytes.
    pub keys: Items<(u16, Items<Word>)>,
}

/// The prefixes of a query have too many words together.
#[derive(Clone, Copy, Debug, PartialEq, Eq)]
pub struct TooMany {
    /// How many they are.
    pub count: u64,
}
