//! Why a job doesn't end.

use commit_outcomes::{Full, Strayed};
use step_book::Naming;
use step_tokens::Note;

/// Why the chunk of a job isn't installed.
#[derive(Drop)]
pub enum InstallFault<J: Naming> {
    NoMemory,
    /// The token contradicts the history of the note.
    Strayed(Strayed, Note<J>),
    /// Another job ended since this one began: the history has a greater shape by now.
    Overtaken { shape: u64, note: Note<J> },
    /// The numbers of files or of roots have ended.
    Full(Full),
    /// The disk failed before the job could take effect: it never will.
    DiskFault,
    /// It is on the disk for good, and waits, since publishing it found no memory: it takes effect with the next call that settles it.
    InDoubt,
}
