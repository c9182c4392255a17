//! The state of a root at the end of a job, and how the job ends on the disk.
#![tactic(auto)]

mod finishing;
mod state;

pub use finishing::{EndFault, finish};
pub use state::state_of;
