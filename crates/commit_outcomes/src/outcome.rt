//! The outcomes of a commit. A store tells one, a session replies by it, and the definitions say by it what is left: so a new
//! outcome is a row in each of them.

use crate::strayed::Strayed;

/// The most documents that live in one index.
pub const MAX_DOCUMENTS: u64 = 4_194_304;

/// What became of a commit for which there was memory.
#[derive(Clone, Copy)]
pub enum CommitOutcome {
    /// It was made; so many ids that it kills were there.
    Committed { removed: u32 },
    /// It was refused as a whole: a document with this id, which it inserts, was there.
    Duplicate { id: u64 },
    /// It was refused as a whole: a limit of the index would be passed.
    Full(Full),
    /// The disk failed before anything of it could take effect: it never will.
    Refused,
    /// It waits: it takes effect with the next call that settles it, or by a crash, or never.
    InDoubt(Doubt),
    /// It was refused as a whole: what a worker and the index count of the history contradicts each other.
    Strayed(Strayed),
}

/// Why a commit is in doubt.
#[derive(Clone, Copy)]
pub enum Doubt {
    /// The disk failed while the gate of its record was opened.
    Disk,
    /// It is on the disk for good, and publishing it found no memory.
    Memory,
}

/// The limit of an index that would be passed.
#[derive(Clone, Copy, PartialEq, Eq)]
pub struct Full {
    pub what: FullKind,
    /// How much there is of it.
    pub at: u64,
    /// How much more would be needed.
    pub need: u64,
}

/// What there can't be more of in an index.
#[derive(Clone, Copy, PartialEq, Eq)]
pub enum FullKind {
    /// Bytes of the log.
    Log,
    /// Documents that live.
    Documents,
    /// Chunks that stand on the disk.
    Chunks,
    /// Bytes of their images.
    Images,
    /// Numbers of commits.
    Numbers,
    /// Numbers of files, or of roots.
    Root,
}
