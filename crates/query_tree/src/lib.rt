//! The types of an extended query: its tree, its keywords with their limits, and how quoted keywords are looked for. No grammar is
//! here, so whoever evaluates a query needs none.
#![tactic(auto)]

mod copies;
mod key;
mod listing;
mod query;

pub use copies::{copy_key, copy_keys, copy_numbers};
pub use key::{How, Key, Limit};
pub use listing::put_keys;
pub use query::{Item, Node, Query};
