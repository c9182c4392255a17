//! Which rows of a chunk match a query, and where.
#![tactic(auto)]

mod apart;
mod calls;
mod finding;
mod joining;
mod laws;
mod matching;
mod parts;
mod planning;
mod quorum;
mod quoted;
mod quoting;
mod search;
mod sentences;
mod streams;
mod verdict;
mod walking;
mod wanted;

pub use calls::{candidates, hits, occurrences};
pub use laws::{
    all_rows_owe_their_counts, an_index_keeps_the_numbers_of_keywords, each_hit_is_of_a_keyword,
    hits_can_be_weighed, numbered_keywords_have_positions,
};
pub use occ_lists::Occ;
pub use sentences::for_schema;
pub use streams::Matches;
