//! Where the bytes of a file are no image of a chunk: the first damage, by its place and its kind.
#![tactic(auto)]

mod fault;

pub use fault::{BadChunk, ChunkKind};
