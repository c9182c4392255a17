//! The engine of one index, as all workers share it: its keeper behind a lock, and what stands outside of it.
#![tactic(auto)]

mod engine;
mod held;
mod telling;

pub use engine::Engine;
pub use job_chunks::NewChunk;
pub use step_book::Naming;
pub use step_tokens::{Note, Token, learn, snapshot};
pub use store_keep::{Charge, CommitFault, Committed, Doubt, InstallFault, Opened, StoreFault};
