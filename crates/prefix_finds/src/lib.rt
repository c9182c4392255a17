//! What a query with prefixes finds, and that the query which is asked in its place finds the same.
#![tactic(auto)]

mod laws;

pub use laws::a_query_without_prefixes_finds_the_same;
