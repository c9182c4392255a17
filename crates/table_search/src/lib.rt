//! What a SELECT finds: its page or its groups, its facets and its count, in one pass over the documents.
#![tactic(auto)]

mod asked;
mod facet_sinks;
mod found;
mod keywords;
mod laws;
mod prefix_docs;
mod searching;

pub use asked::{Asked, GroupTable, Table};
pub use found::{Found, FoundTable, Unfound};
pub use keywords::{WordDocs, word_docs};
pub use laws::a_select_finds_the_same;
pub use searching::find_tables;
