//! The marks of rows in an image that comes from outside: they are read row by row, and the places that they lay out for positions,
//! and those that their boundaries take, are noted in a cover.
#![tactic(auto)]

mod fields;
mod gaps;
mod part;
mod placing;
mod rows;
mod spans;

pub use part::read_part;
