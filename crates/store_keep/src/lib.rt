//! The keeper of one index: documents survive. It has the disk, the log, and the line of what is published; a commit is on the disk
//! for good before anyone sees it.
#![tactic(auto)]

mod beginning;
mod charge;
mod charging;
mod closing;
mod committing;
mod entering;
mod fault;
mod install_fault;
mod installing;
mod job_ends;
mod keeper;
mod kept;
mod laws;
mod making;
mod numbers;
mod opened;
mod opening;
mod preparing;
mod settling;

pub use charge::Charge;
pub use commit_outcomes::Doubt;
pub use fault::{CommitFault, Committed};
pub use install_fault::InstallFault;
pub use job_ends::{LAST_FILE, LAST_ROOT};
pub use keeper::Keeper;
pub use laws::{
    a_crash_between_calls_leaves_the_documents, files_between_calls_are_those_of_the_history,
};
pub use opening::Opened;
pub use store_reads::StoreFault;
