//! What readers of an index take: its last snapshot, with the history after which it stands, by tokens that remember what they
//! saw.
#![tactic(auto)]

mod note;
mod rule;
mod shown;
mod token;

pub use note::Note;
pub use rule::{Finds, Idle, Rises, Shows};
pub use shown::Shown;
pub use token::{ReadingEnd, Token, learn, snapshot};
