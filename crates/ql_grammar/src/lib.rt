//! The grammar of SphinxQL, and the statements that its texts mean.
#![tactic(auto)]

mod fault;
mod keyword;
mod kind;

pub use fault::{ParseFault, ParseKind};
pub use keyword::{Keyword, keyword_named};
pub use kind::Kind;
