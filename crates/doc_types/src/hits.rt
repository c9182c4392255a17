//! Hits: where the keywords of a query are in a document. Rankers weigh a document by them.
use srch_base::Items;

/// A place of a document at which a keyword of a query matches.
#[derive(Clone, Copy, PartialEq, Eq)]
pub struct Hit {
    /// The keyword's position in the query, from 1.
    pub query: u16,
    /// The keyword's word, from 0: its place among the distinct words of the query, by first use from left to right.
    pub word: u16,
    /// The field's number, from 0.
    pub field: u16,
    /// The word's position in the field, from 1.
    pub position: u32,
}

/// The hits of a document.
#[derive(Clone, Drop, PartialEq, Eq)]
pub struct Hits {
    /// How many keywords the query has.
    pub keywords: u16,
    pub list: Items<Hit>,
}
