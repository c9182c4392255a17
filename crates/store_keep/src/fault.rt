//! What the calls of a keeper answer.

use commit_outcomes::{Doubt, Full, Strayed};
use step_book::Naming;
use step_tokens::Note;

/// A commit that was made.
#[derive(Drop)]
pub struct Committed<J: Naming> {
    /// The history with it.
    pub note: Note<J>,
    /// Its number among all commits of the index.
    pub number: u64,
    /// How many ids that it kills were there.
    pub removed: u32,
}

/// Why a commit isn't acknowledged.
#[derive(Drop)]
pub enum CommitFault<J: Naming> {
    NoMemory,
    /// The token contradicts the history of the note.
    Strayed(Strayed, Note<J>),
    /// The id of an insertion was there.
    Duplicate { id: u64, note: Note<J> },
    /// A limit would be passed.
    Full { full: Full, note: Note<J> },
    /// The disk failed before anything of the commit could take effect: it never will.
    Refused,
    /// It waits: it takes effect with the next call that settles it, or by a crash, or never.
    InDoubt(Doubt),
}
