//! Transactions and schemas as bytes, as logs and roots keep them.
#![tactic(auto)]

mod laws;
mod reading;
mod schema_text;
mod span_reading;
mod word_reading;
mod writing;

pub use laws::a_payload_is_as_long_as_is_counted;
pub use reading::{BadTxn, read_txn};
pub use schema_text::put_schema;
pub use writing::put_txn;
