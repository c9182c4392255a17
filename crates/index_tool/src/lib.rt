//! What a folder holds, without the daemon: whether the files of an index are whole, which words its chunks have, and where a word
//! stands in them.
#![tactic(auto)]

mod asking;
mod chunks;
mod configuring;
mod folding;
mod hits;
mod host;
mod lines;
mod memory;
mod printing;
mod showing;
mod status;
mod tool;

pub use host::ToolHost;
pub use program_host::Stream as ToolStream;
pub use status::ToolStatus;
pub use store_steps::DamageKind as ToolKind;
pub use tool::indextool;
