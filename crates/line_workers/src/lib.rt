//! The workers of the daemon: each serves the lines of its own door, one after another, over its own tokens of all indexes, and
//! all run side by side. Once all have ended, each index ends with their tokens of it.
#![tactic(auto)]

mod all;
mod laws;
mod seat;
mod serving;
mod working;

pub use all::{serve_all, serve_in_turn};
pub use laws::{
    a_worker_alone_has_one_reply, a_worker_alone_sees_its_commits, each_commit_stands_once,
    each_entry_was_asked_for,
};
pub use seat::Seat;
pub use serving::{SeatEnd, serve_lines};
