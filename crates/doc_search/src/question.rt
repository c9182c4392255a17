//! What is asked of an index.
use crate::ranking::Ranking;
use query_tree::Query;
use rankers::Weights;
use row_select::{Filter, Order, Page};
use srch_base::Items;

/// A search: which documents are found, how they are weighed, in which order they stand, and which of them are shown.
#[derive(Drop)]
pub struct Question {
    /// As the index means it: `op_eval::for_schema` makes it so. One without a root matches every document, with the weight 1.
    pub query: Query,
    pub ranker: Ranking,
    /// One for each field of the index.
    pub weights: Weights,
    /// The conditions on columns: a document is found that passes all of them.
    pub filters: Items<Filter>,
    pub order: Order,
    pub page: Page,
    /// How many attributes the documents of the index have.
    pub attrs: u16,
}
