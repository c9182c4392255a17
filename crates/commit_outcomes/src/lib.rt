//! What becomes of a commit: its outcomes, and what each leaves of an index.
#![tactic(auto)]

mod laws;
mod outcome;
mod strayed;

pub use laws::a_commit_has_one_outcome;
pub use outcome::{CommitOutcome, Doubt, Full, FullKind, MAX_DOCUMENTS};
pub use strayed::Strayed;
