//! The top call of the daemon: what its words ask is done through a host, and a status says how it went.
#![tactic(auto)]

mod checking;
mod configuring;
mod opening;
mod printing;
mod program;
mod self_testing;
mod serving;

pub use program::searchd;
