//! The types of SphinxQL's statements. No grammar is here, so whoever runs a statement needs none.
#![tactic(auto)]

mod select;
mod statement;

pub use select::{
    Comparison, Cond, FacetPart, Having, LimitPart, OptionValue, Select, SelectExpr, SelectItem,
    SelectOption, SortKey, SortName,
};
pub use statement::{Ids, MAX_STATEMENTS, Plain, Scope, SetValue, Statement, Target, Val};
