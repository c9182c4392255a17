//! The parser of SphinxQL: statements from tokens.
#![tactic(auto)]

mod calls;
mod commands;
mod comparisons;
mod conditions;
mod cursor;
mod delete;
mod insert;
mod parsing;
mod part;
mod select_items;
mod select_parts;
mod selecting;
mod selects;
mod settings;
mod sorting;
mod statements;

pub use parsing::parse;
