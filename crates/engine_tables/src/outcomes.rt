//! What an engine's answer to a commit, or to a job, is to a session.
ghost use Rattle.std.specs.Prelude.{◌≡◌};
ghost use Rattle.engine_tables.specs.Outcomes.{job_outcome_of, numbers_of, numbers_of_job, outcome_of};

use commit_outcomes::{CommitOutcome, Strayed};
use ql_answers::JobOutcome;
use snap_share::{CommitFault, Committed, InstallFault, Note};
use srch_base::NoMemory;
use step_book::Naming;

/// The outcome of a commit that was answered so. The note isn't wanted: the token has learnt what it tells.
pub(crate) fn outcome_of<J: Naming>(
    answer: Result<Committed<J>, CommitFault<J>>,
) -> Result<CommitOutcome, NoMemory>
    ensures { result ≡ outcome_of answer }
{
    match answer {
        Ok(made) => Ok(CommitOutcome::Committed {
            removed: made.removed,
        }),
        Err(CommitFault::NoMemory) => Err(NoMemory),
        Err(CommitFault::Strayed(numbers, _note)) => Ok(CommitOutcome::Strayed(numbers)),
        Err(CommitFault::Duplicate { id, note: _ }) => Ok(CommitOutcome::Duplicate { id }),
        Err(CommitFault::Full { full, note: _ }) => Ok(CommitOutcome::Full(full)),
        Err(CommitFault::Refused) => Ok(CommitOutcome::Refused),
        Err(CommitFault::InDoubt(doubt)) => Ok(CommitOutcome::InDoubt(doubt)),
    }
}

/// The numbers of an outcome that is a contradiction.
pub(crate) fn numbers_of(outcome: CommitOutcome) -> Option<Strayed>
    ensures { result ≡ numbers_of outcome }
{
    match outcome {
        CommitOutcome::Strayed(numbers) => Some(numbers),
        _ => None,
    }
}

/// The outcome of a job whose end was answered so.
pub(crate) fn job_outcome_of<J: Naming>(
    answer: Result<Note<J>, InstallFault<J>>,
) -> Result<JobOutcome, NoMemory>
    ensures { result ≡ job_outcome_of answer }
{
    match answer {
        Ok(_note) => Ok(JobOutcome::Shaped),
        Err(InstallFault::NoMemory) => Err(NoMemory),
        Err(InstallFault::Strayed(numbers, _note)) => Ok(JobOutcome::Strayed(numbers)),
        Err(InstallFault::Overtaken { shape, note: _ }) => Ok(JobOutcome::Overtaken { shape }),
        Err(InstallFault::Full(full)) => Ok(JobOutcome::Full(full)),
        Err(InstallFault::DiskFault) => Ok(JobOutcome::Refused),
        Err(InstallFault::InDoubt) => Ok(JobOutcome::InDoubt),
    }
}

/// The numbers of a job's outcome that is a contradiction.
pub(crate) fn numbers_of_job(outcome: JobOutcome) -> Option<Strayed>
    ensures { result ≡ numbers_of_job outcome }
{
    match outcome {
        JobOutcome::Strayed(numbers) => Some(numbers),
        _ => None,
    }
}
