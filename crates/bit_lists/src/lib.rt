//! Lists of bits, one for each of many things, eight in a byte.
//!
//! A list of bytes for the same things takes eight times the memory, and where there are many more of them than a processor's cache
//! holds, most of the time is spent waiting for it.
#![tactic(auto)]

mod bits;
mod list;

pub use list::BitList;
