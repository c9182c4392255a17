//! The first row of an image whose positions aren't each taken once.
#![tactic(auto)]

mod rows;

pub use rows::uncovered_row;
