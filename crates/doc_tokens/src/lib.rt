//! The tokens of a field: its words with their positions and boundaries, and the spans of its zones.
#![tactic(auto)]

mod cover;
mod field;
mod laws;
mod plain;
mod reader;
mod sign;
mod spans;
mod walk;

pub use field::{TooLong, tokens};
pub use laws::{a_text_has_one_answer, segments_are_maximal_runs};
