//! What an extended query is: its tree, the grammar with its values, and the first fault of a text that is none. The readers
//! and the writer stand on it.
#![tactic(auto)]

mod class;
mod fault;
mod law;

pub use class::Class;
pub use fault::QueryFault;
pub use law::{a_query_has_no_fault, a_text_has_one_first_fault, a_text_is_one_query};
