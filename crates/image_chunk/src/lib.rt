//! A chunk that answers from the bytes of its image.
#![tactic(auto)]

mod image_chunk;
mod joining;
mod ram_chunk;
mod skips;
mod steps;

pub use image_chunk::ImageChunk;
pub use joining::AnyChunk;
pub use ram_chunk::RamChunk;
