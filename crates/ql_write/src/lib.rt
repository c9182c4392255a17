//! The canonical text of a statement.
#![tactic(auto)]

mod reading_law;
mod writing;
mod written;
mod written_items;
mod written_select;
mod written_statement;

pub use reading_law::{canonical_text_is_read, packets_have_values};
pub use written_statement::put_statement;
