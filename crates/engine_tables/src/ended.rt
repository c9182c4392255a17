//! What is left of an engine.
use chunk_store::Disk;
use commit_outcomes::Strayed;
use snap_share::Note;
use srch_base::Or;
use step_book::Naming;

/// What the end of an engine gives back.
pub struct Ended<D: Disk, J: Naming> {
    pub disk: D,
    /// A note of the whole history, where there was an engine.
    pub note: Option<Note<J>>,
    /// Whether all its tokens have seen this history, or why not.
    pub answer: Result<(), Or<Strayed>>,
}
