//! The head of an image that comes from outside: whether its header fits the bytes and the schema, and whether its rows ascend.
#![tactic(auto)]

mod fixed;
mod header;
mod rows;

pub use header::{Sizes, read_header};
pub use rows::unordered_row;
