//! The chunk that a job makes of a snapshot, whole before the job ends: its rows are those that the job takes, and its bytes are the
//! image of them.
#![tactic(auto)]

mod building;
mod limits;
mod making;
mod new_chunk;
mod rows;

pub use limits::MAX_IMAGES;
pub use new_chunk::NewChunk;
pub use rows::rows_fit;
