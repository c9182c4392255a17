//! The outcomes of a job, FLUSH or OPTIMIZE. A store tells one, and a session replies by it.
use commit_outcomes::{Full, Strayed};

/// What became of a job for which there was memory.
#[derive(Clone, Copy)]
pub enum JobOutcome {
    /// It has ended.
    Shaped,
    /// Nothing of it takes effect: another job ended before it, and the index has this shape now.
    Overtaken { shape: u64 },
    /// Nothing of it takes effect: a limit of the index would be passed.
    Full(Full),
    /// The disk failed, and nothing of it takes effect.
    Refused,
    /// It is on the disk, and publishing it found no memory: it takes effect with the next call that settles it, or by a crash.
    InDoubt,
    /// It was refused: what a worker and the index count of the history contradicts each other.
    Strayed(Strayed),
}
