//! What SHOW META tells ("SHOW META syntax" of the manual).
use srch_base::Items;
use table_search::WordDocs;

/// What is told of the last SELECT from an index that wasn't refused.
#[derive(Drop)]
pub struct Meta {
    /// How many rows or groups there are for its page.
    pub total: u64,
    /// How many rows it found, or how many groups HAVING keeps.
    pub total_found: u64,
    /// Its words, each with the number of documents that have it.
    pub words: Items<WordDocs>,
}
