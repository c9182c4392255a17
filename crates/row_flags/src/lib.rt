//! Which rows of a run match a query, and what else its words tell of them, by flags, where words and their fields decide that: so
//! rows are counted, and many are told of at a time, by going over the rows of each word, with no plan and no look at a single row.
#![tactic(auto)]

mod combining;
mod counting;
mod keys;
mod tallies;
mod trees;
mod windows;
mod words;

pub use counting::count_from;
pub use windows::{Told, told_rows};
