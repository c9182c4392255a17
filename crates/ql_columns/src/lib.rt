//! The columns of an index, as statements name them.
#![tactic(auto)]

mod columns;

pub use columns::{ID, IndexColumn, all_columns, column_named, kind_of, name_fault, name_of};
