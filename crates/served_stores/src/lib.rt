//! The indexes of a configuration are served over stores that were opened: their engines get names, workers serve lines, and each index
//! ends. No name leaves the call.
#![tactic(auto)]

mod ends;
mod seating;
mod serving;

pub use ends::IndexEnd;
pub use serving::{Outcome, Served, serve_stores};
