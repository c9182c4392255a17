//! INSERT: the transaction of its rows, or why it is refused.
#![tactic(auto)]

mod documents;
mod faults;
mod inserting;
mod laws;
mod targets;

pub use inserting::insertion;
pub use laws::an_insert_has_one_answer;
