//! The keywords of a query over the rows of a chunk: which of their words a row has, and where they are in it.
#![tactic(auto)]

mod asking;
mod counting;
mod fields;
mod loading;
mod marks;
mod slots;

pub use asking::{AskedMarks, asks_for};
pub use counting::{key_count, part_first, part_last};
pub use fields::looks_at_fields;
pub use marks::RowMarks;
pub use slots::Slots;
