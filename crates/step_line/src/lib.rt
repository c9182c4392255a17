//! The writing end of an index: the published history, the one step that waits to be published, and how many commits each worker
//! has made. Beside it the calls that a fault or a contradiction ended.
#![tactic(auto)]

mod counting;
mod line;
mod pending;
mod showing;
mod tally;

pub use line::Line;
pub use pending::Pending;
pub use showing::WritingEnd;
pub use tally::Tally;
