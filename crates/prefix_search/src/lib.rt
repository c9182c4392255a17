//! Searches by queries with prefixes: which query is asked in the place of such a one, and what it finds.
#![tactic(auto)]

mod asking;
mod laws;

pub use asking::query_to_ask;
pub use laws::{a_search_finds_the_same, too_many_words_are_so_many};
