//! Prefixes of a query: the words that each of them stands for in a snapshot, and the query without prefixes that asks for these
//! words in their place. Evaluation knows whole words alone.
//!
//! `expand` goes over the dictionaries of all layers in step, so that each word comes once, in order; `rewrite` puts an OR of the
//! words in the place of each prefix.
#![tactic(auto)]

mod expanding;
mod expansion;
mod merging;
mod parts;
mod rewriting;
mod words;

pub use expanding::{expand, words_of_prefix};
pub use expansion::{Expansion, MAX_PREFIX_WORDS, TooMany};
pub use rewriting::rewrite;
