//! SphinxQL's statements: their types, the parser, the writer, and what holds of them.
#![tactic(auto)]

mod law;

pub use law::{packets_have_no_fault, tokens_have_one_fault, tokens_have_one_value};
pub use ql_grammar::{Keyword, Kind, ParseFault, ParseKind};
pub use ql_read::parse;
pub use ql_tree::{
    Comparison, Cond, FacetPart, Having, Ids, LimitPart, MAX_STATEMENTS, OptionValue, Plain, Scope,
    Select, SelectExpr, SelectItem, SelectOption, SetValue, SortKey, SortName, Statement, Target,
    Val,
};
pub use ql_write::{canonical_text_is_read, packets_have_values, put_statement};
