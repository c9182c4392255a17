//! The next row by a query's plan: which rows of a chunk have the words that the query can't do without, one after another.
#![tactic(auto)]

mod bounds;
mod cursors;
mod living;
mod plan;

pub use bounds::next;
pub use living::{next_living, rows_of};
pub use plan::Plan;
