//! How the answers of a keeper's calls are charged.
ghost use Rattle.std.specs.Prelude.{◌≡◌};
ghost use Rattle.store_keep.specs.Charges.{charge_of, charge_of_job, charge_of_limit};

use crate::fault::{CommitFault, Committed};
use crate::install_fault::InstallFault;
use commit_outcomes::{Doubt, FullKind};
use step_book::Naming;
use step_tokens::Note;

/// What stands behind an answer: nothing that is counted, a fault of the disk, or a stop, which is a contradiction or the end of numbers
/// of files or roots.
#[derive(Clone, Copy)]
pub enum Charge {
    Free,
    Fault,
    Stop,
}

/// How a limit that would be passed is charged.
fn charge_of_limit(what: FullKind) -> Charge
    ensures { result ≡ charge_of_limit what }
{
    match what {
        FullKind::Root => Charge::Stop,
        FullKind::Log
        | FullKind::Documents
        | FullKind::Numbers
        | FullKind::Chunks
        | FullKind::Images => Charge::Free,
    }
}

/// How the answer of a commit is charged.
pub(crate) fn charge_of<J: Naming>(answer: &Result<Committed<J>, CommitFault<J>>) -> Charge
    ensures { result ≡ charge_of answer.now }
{
    match answer {
        Ok(_) => Charge::Free,
        Err(CommitFault::NoMemory) => Charge::Free,
        Err(CommitFault::Strayed(_, _)) => Charge::Stop,
        Err(CommitFault::Duplicate { .. }) => Charge::Free,
        Err(CommitFault::Full { full, .. }) => charge_of_limit(full.what),
        Err(CommitFault::Refused) => Charge::Fault,
        Err(CommitFault::InDoubt(Doubt::Disk)) => Charge::Fault,
        Err(CommitFault::InDoubt(Doubt::Memory)) => Charge::Free,
    }
}

/// How the answer of a job is charged.
pub(crate) fn charge_of_job<J: Naming>(answer: &Result<Note<J>, InstallFault<J>>) -> Charge
    ensures { result ≡ charge_of_job answer.now }
{
    match answer {
        Ok(_) => Charge::Free,
        Err(InstallFault::NoMemory) => Charge::Free,
        Err(InstallFault::Strayed(_, _)) => Charge::Stop,
        Err(InstallFault::Overtaken { .. }) => Charge::Free,
        Err(InstallFault::Full(full)) => charge_of_limit(full.what),
        Err(InstallFault::DiskFault) => Charge::Fault,
        Err(InstallFault::InDoubt) => Charge::Free,
    }
}
