//! The chunks that a root names, read from their files: layers of a snapshot, or their first damage.
#![tactic(auto)]

mod again;
mod fault;
mod file;
mod files;
mod pairs;

pub use fault::ChunkFault;
pub use files::read_chunks;
