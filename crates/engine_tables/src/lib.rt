//! The indexes of a configuration over their engines, and what one worker makes of them: a store for its sessions, which all workers
//! share.
#![tactic(auto)]

mod ended;
mod ending;
mod engines;
mod making;
mod naming;
mod outcomes;
mod table;
mod tokens;
mod worker;

pub use ended::Ended;
pub use ending::Ending;
pub use engines::Engines;
pub use naming::Named;
pub use tokens::Tokens;
pub use worker::WorkerTables;
