//! Which rows a select shows: conditions on columns, the order of rows, and the page.
#![tactic(auto)]

mod chunk_row;
mod collector;
mod conditions;
mod filter;
mod found;
mod laws;
mod order;
mod page;
mod row;
mod sink;

pub use chunk_row::ChunkRow;
pub use collector::Collector;
pub use conditions::Conditions;
pub use filter::{CompareOp, Filter};
pub use found::FoundRow;
pub use laws::{a_page_is_one_list, conditions_hold_in_two_parts};
pub use order::Order;
pub use page::{Page, top};
pub use row::{ColumnRef, Row};
pub use sink::{Both, RowCount, Sink};
