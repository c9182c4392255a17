//! The written form of an extended query.
#![tactic(auto)]

mod spelling;
mod tokens;
mod written;

pub use written::put_query;
