//! Ranking expressions: their grammar, the reader of their texts, and the weight that one gives a document.
#![tactic(auto)]

mod by_fields;
mod class;
mod cursor;
mod expr;
mod fault;
mod joins;
pub mod law;
mod mark;
mod names;
mod numbers;
mod pieces;
mod ranking;
mod reader;
mod reading;
mod short_values;

pub use by_fields::{goes_by_fields, rank_by_fields};
pub use class::Class;
pub use expr::{DocFactor, Expr, FieldFactor, PairOp, RankExpr};
pub use fault::{ExprFault, ExprKind, MAX_NAME, MAX_TEXT};
pub use mark::{Function, Leaf, Mark, Sign, Single};
pub use ranking::rank;
pub use reading::read_expr;
