//! The one history of an index as all threads share it: a line of steps that only grows, kept in proofs, and the beginnings of
//! it that were seen.
#![tactic(auto)]

mod front;
mod held;
mod laws;
mod line;
mod made;
mod naming;
mod share;

pub use front::{Front, Turn};
pub use laws::shares_fit;
pub use line::{Book, NewBook, NewLine, Past};
pub use made::{Made, Mark};
pub use naming::Naming;
pub use share::{Faults, Kind, Ledger, Share, ShareTurn, Stops};
