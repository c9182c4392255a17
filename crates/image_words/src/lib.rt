//! The words of an image that comes from outside: whether each has its entry in the word table, and whether they ascend.
#![tactic(auto)]

mod order;
mod table;

pub use order::unordered_word;
pub use table::bad_entry;
