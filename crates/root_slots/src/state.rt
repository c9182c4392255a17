use srch_base::{Items, Text};

/// A chunk that a state names.
#[derive(Drop)]
pub struct ChunkEntry {
    /// The number of its file.
    pub file: u32,
    /// The length of its file in bytes.
    pub length: u32,
    /// Its rows that don't count any more, ascending.
    pub dead: Items<u32>,
}

/// What a root says that an index is made of.
#[derive(Drop)]
pub struct RootState {
    /// A line for each column, as `field title` or `uint gid`, each ended by a line feed.
    pub schema_text: Text,
    /// The number of the last commit that the chunks have.
    pub through: u64,
    /// The number of the next file that is made.
    pub next_file: u32,
    /// The file of the older log, 0 where there is none.
    pub older: u32,
    /// The file of the log that grows.
    pub newer: u32,
    /// At most 16.
    pub chunks: Items<ChunkEntry>,
}
