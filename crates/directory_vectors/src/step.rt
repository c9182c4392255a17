use doc_types::Txn;
use step_history::Job;

/// A step of a script.
#[derive(Drop)]
pub enum Step {
    Commit(Txn),
    /// A whole job.
    Job(Job),
    /// A job begins, the first one or the second.
    Begin { second: bool, job: Job },
    /// It ends.
    End { second: bool },
}
