//! A commit over the layers of a snapshot, whatever keeps the rows of each.
//!
//! A commit copies no row that is there. It marks rows as dead in the layers that have them, and puts its own rows into a layer
//! behind the others; so it costs what its transaction is long, times the number of layers and a binary search in each, and four
//! bytes for each row that is dead already in a layer in which it kills one. Layers are put together by whoever keeps the snapshot.
#![tactic(auto)]

mod committing;
mod dead_rows;
mod finding;
mod making;
mod refusal;
mod trial;

pub use committing::{commit, kill_rows, live_count};
pub use finding::is_dead;
pub use making::MakeChunk;
pub use refusal::Refusal;
