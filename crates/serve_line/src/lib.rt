//! One connection of the MySQL protocol, from its greeting to its end, whatever answers its commands.
#![tactic(auto)]

mod answerer;
mod laws;
mod line;
mod packets;
mod reading;
mod refusals;
mod writing;

pub use answerer::Answerer;
pub use laws::a_line_is_read_in_one_way;
pub use line::{LinkEnd, serve};
