//! What a SELECT from an index means: what it asks of the documents, of groups and facets of them, and which columns it shows, or
//! why it is refused.
//!
//! Everything here follows from the text and the configuration alone. A SELECT is gone over once, from left to right: each name is
//! turned into what it means, and of the faults the one that decides is kept. Then comes what the names mean together, and last
//! the text of its MATCH.
#![tactic(auto)]

mod aliases;
mod conditions;
mod facets;
mod faults;
mod first_fault;
mod grouping;
mod keys;
mod laws;
mod limits;
mod names;
mod naming;
mod options;
mod rest;
mod selecting;
mod selection;
mod showing;
mod targets;

pub use laws::{
    a_refusal_is_the_first_fault, a_select_has_one_answer, a_selection_is_asked_of_its_index,
};
pub use selecting::select;
pub use selection::{Selection, Shown};
