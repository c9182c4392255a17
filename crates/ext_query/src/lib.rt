//! Extended queries: their types, the reader, the writer, and what holds of them.
#![tactic(auto)]

mod written_law;

pub use query_grammar::{
    QueryFault, a_query_has_no_fault, a_text_has_one_first_fault, a_text_is_one_query,
};
pub use query_marks::QueryKind;
pub use query_read::{
    a_query_has_at_most_255_keywords, a_query_is_a_text_of_the_grammar, read_query,
};
pub use query_tree::{How, Item, Key, Limit, Node, Query};
pub use query_write::put_query;
pub use written_law::{a_value_is_one_without_the_limit, a_written_query_is_read_back};
