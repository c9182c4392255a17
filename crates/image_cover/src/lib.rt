//! The places that hits take: posting lists that come from outside are read, and each hit takes the place of its position.
#![tactic(auto)]

mod cover;
mod lists;
mod numbers;
mod words;

pub use cover::Cover;
pub use words::take_lists;
