//! What the program asks of the system, as a trait with a host over memory, and what it says at its end. The program's own host keeps the
//! same trait over files and the network, so neither rests on what the program does between.
#![tactic(auto)]

mod host;
mod memory_host;
mod requests;
mod status;

pub use host::{Host, Stream};
pub use memory_host::MemoryHost;
pub use requests::{Request, Requests};
pub use status::Status;
