//! The log of an index: records behind gates. A record counts once its gate is open, and a gate is opened only when the record
//! behind it, and the closed gate behind that, are on the disk for good.
#![tactic(auto)]

mod copies;
mod fault;
mod frame;
mod front;
mod laws;
mod log;
mod reading;
mod records;

pub use fault::{LogFault, LogKind};
pub use front::read_front;
pub use laws::{
    a_log_gives_its_records, a_log_gives_its_records_or_one_more, a_log_is_read_in_one_way,
    a_log_that_is_read_stands,
};
pub use log::GateLog;
pub use reading::{Before, LogRead, RecordAt, read_records};
pub use records::{LogRecord, Staged};
