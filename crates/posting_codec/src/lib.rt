//! The bytes of posting lists: short numbers, lists of hits, and entries of rows, each in one spelling.
#![tactic(auto)]

mod hits;
mod laws;
mod numbers;
mod postings;

pub use hits::{hits_at, hits_length, put_hits, read_hits};
pub use laws::{no_hit_list_begins_another, no_number_begins_another};
pub use numbers::{number_at, number_length, put_number, read_number};
pub use postings::{posting_at, put_posting, put_spelled, read_posting};
