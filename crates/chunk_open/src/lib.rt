//! A chunk from the bytes of a file, or where these are damaged first.
#![tactic(auto)]

mod opening;

pub use opening::open;
