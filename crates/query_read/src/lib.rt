//! The reader of extended queries: a text is the query that it is, or its first fault.
#![tactic(auto)]

mod cursor;
mod faults;
mod joins;
mod keys_law;
mod levels;
mod operators;
mod reader;
mod reading;
mod recognizer;
mod text_law;

pub use keys_law::a_query_has_at_most_255_keywords;
pub use query_grammar::{
    QueryFault, a_query_has_no_fault, a_text_has_one_first_fault, a_text_is_one_query,
};
pub use query_pieces::each_text_has_pieces;
pub use reading::read_query;
pub use text_law::a_query_is_a_text_of_the_grammar;
