use doc_types::Snapshot;
use image_chunk::AnyChunk;
use std::alloc::Global;
use std::sync::Arc;
use store_steps::Files;

/// What the files of an index are, and the documents.
#[derive(Drop)]
pub struct Found {
    /// Its root and its log, as they were read.
    pub files: Files,
    /// The chunks that the root names are its layers on the disk, in the root's order; what its logs have besides is in memory.
    pub snapshot: Arc<Snapshot<AnyChunk>, Global>,
    /// How many records its logs have that no chunk has.
    pub records: u64,
    /// How many documents live.
    pub documents: u32,
}
