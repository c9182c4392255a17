//! Places and occurrences of a query's parts in one document, and how operators join them.
#![tactic(auto)]

mod buffers;
mod cover;
mod joins;
mod nearness;
mod occ;
mod order;
mod places;
mod runs;
mod term;
mod wanted;
mod windows;

pub use buffers::Buffers;
pub use cover::Cover;
pub use joins::{put_before, put_near, put_together};
pub use nearness::stand_apart;
pub use occ::Occ;
pub use order::sort_distinct;
pub use places::within;
pub use runs::put_runs;
pub use term::Term;
pub use windows::{put_widest, put_windows};
