//! The weight of a document by its hits, for each ranker, and what a field gives to a ranking expression.
#![tactic(auto)]

mod by_fields;
mod field_factors;
pub mod law;
mod limits;
mod offsets;
mod ranker;
mod weighing;
mod words;

pub use by_fields::weight_of_fields;
pub use field_factors::factors;
pub use limits::{most_of_fields, most_weight, most_within};
pub use ranker::{Factors, MAX_FIELD_WEIGHT, Ranker, Weights};
pub use weighing::weight;
