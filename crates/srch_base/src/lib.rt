//! What every crate of the daemon rests on: faults, links and doors to the outside, small lists of bytes, number fields.
#![tactic(auto)]

mod door;
mod faults;
mod items;
mod link;
mod list_door;
mod memory_link;
mod numbers;
mod pieces;
mod places;
mod steps;
mod texts;

pub use door::Door;
pub use faults::{Failed, NoMemory, OpenFault, Or};
pub use items::Items;
pub use link::Link;
pub use list_door::ListDoor;
pub use memory_link::MemoryLink;
pub use numbers::{put_u16, put_u32, put_u64, u16_at, u32_at, u64_at};
pub use steps::Steps;
pub use texts::{Held, Name, NameMark, Text, TextMark, Word, WordMark};
