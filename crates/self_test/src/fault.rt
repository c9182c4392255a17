//! Why a selftest has no summary.
use commit_outcomes::Strayed;

/// Why a conversation has no summary, where memory wasn't refused.
#[derive(Clone, Copy, Debug, PartialEq, Eq, Drop)]
pub enum Astray {
    /// A job failed: FLUSH or OPTIMIZE was refused, or other chunks are on the disk in the end than OPTIMIZE leaves.
    JobFailed,
    /// Another reply isn't the one that it has to be.
    Unexpected,
}

/// Why a selftest has no summary.
#[derive(Clone, Copy)]
pub enum SelftestFault {
    NoMemory,
    /// What the index and the token of it count contradicts each other.
    Strayed(Strayed),
    /// A job failed. Another job overtook it or came behind it, or a limit leaves no room; no cause of it is known.
    JobFailed,
}
