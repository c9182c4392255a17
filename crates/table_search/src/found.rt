//! What a SELECT finds, as it is shown.
use group_facet::GroupRow;
use row_select::Row;
use srch_base::Items;

/// What is shown of the documents that were found.
#[derive(Drop)]
pub enum FoundTable {
    Rows(Items<Row>),
    Groups(Items<GroupRow>),
}

/// Why a SELECT is refused by the documents of its index.
#[derive(Clone, Copy, Debug, PartialEq, Eq)]
pub enum Unfound {
    /// The prefixes of its query have so many words together, and these are too many.
    TooManyWords(u64),
    /// The document of this id has no weight; it is the first of these.
    NoWeight(u64),
}

/// What a SELECT finds.
#[derive(Drop)]
pub struct Found {
    pub table: FoundTable,
    /// How many documents were found, or how many groups HAVING keeps, whatever the page.
    pub total_found: u64,
    /// For each facet the values that it shows, each with the number of documents that have it.
    pub facets: Items<Items<(i128, u64)>>,
}
