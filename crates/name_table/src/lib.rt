//! Tables of fixed words: the place of a word, whatever the case of its ASCII letters, and matches over the places.
#![tactic(auto)]

mod macros;
mod table;

pub use table::NameTable;
