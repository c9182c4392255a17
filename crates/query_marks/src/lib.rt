//! What each piece of an extended query means by the pieces before it, and what is wrong with it by itself.
#![tactic(auto)]

mod fault;
mod faulty;
mod keys;
mod laws;
mod limits;
mod mark;
mod marking;
mod names;
mod numbers;
mod reading;
mod signs;
mod slices;
mod state;
mod steps;
mod words;

pub use fault::{QueryKind, Wrong};
pub use laws::a_keyword_is_under_the_last_limit;
pub use limits::Limits;
pub use mark::{Mark, Sign};
pub use reading::marks;
