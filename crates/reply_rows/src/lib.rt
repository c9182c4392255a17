//! The replies to a command, as packets: OK, refusals and result sets.
#![tactic(auto)]

mod replies;
mod result_set;
mod table;
mod writing;

pub use replies::Replies;
pub use result_set::ResultSet;
pub use table::Table;
