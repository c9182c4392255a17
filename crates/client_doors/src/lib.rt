//! Where the program's clients come from: the standard streams, or a listener over TCP that the doors of its workers share.
#![tactic(auto)]

mod client_door;
mod client_line;
mod client_stream;
mod lent;
mod opening;
pub mod retrying;

pub use client_door::ClientDoor;
pub use client_line::ClientLine;
pub use client_stream::{ClientStream, GREETING_SECONDS, PATIENCE_SECONDS, PAUSE_MILLISECONDS};
pub use lent::Lent;
pub use opening::{listening_doors, standard_door};
