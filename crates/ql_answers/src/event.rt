//! What the outside did about a statement.
use crate::job_outcome::JobOutcome;
use commit_outcomes::CommitOutcome;
use doc_types::{HitLists, Snapshot};
use step_history::Job;

/// What became of what a statement wants, by what was asked of the outside.
#[derive(Drop)]
pub enum Event<'a, C: HitLists> {
    /// Nothing was asked for.
    Nothing,
    /// Memory was refused, and nothing was done.
    NoMemory,
    /// The index as the statement finds it.
    Read(&'a Snapshot<C>),
    /// What became of the commit.
    Commit(CommitOutcome),
    /// What became of the job.
    Reshape(JobOutcome),
}

/// What a statement wants of the outside.
#[derive(Clone, Copy, PartialEq, Eq)]
pub enum Need {
    Nothing,
    /// The index at this place.
    Read(u16),
    /// A commit of `StatementMachine::pending` to the index at this place.
    Commit(u16),
    /// A job over the index at this place.
    Reshape(u16, Job),
}
