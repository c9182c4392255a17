//! The selftest: generated documents are written to a session and asked for, and what is found is what SELECTs find in them.
#![tactic(auto)]

mod asking;
mod engine;
mod fault;
mod generator;
mod index;
mod laws;
mod running;
mod summary;
mod texts;

pub use engine::run_over_engine;
pub use fault::{Astray, SelftestFault};
pub use generator::{Document, documents};
pub use laws::texts_are_read_as_statements;
pub use running::run;
pub use summary::Summary;
