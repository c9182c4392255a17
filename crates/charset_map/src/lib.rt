//! Character tables: which characters are part of words, and what each is folded to.
#![tactic(auto)]

mod adding;
mod characters;
mod charset;
mod entries;
mod fault;
mod gathering;
mod laws;
mod span;
mod spans;
mod trimming;

pub use charset::Charset;
pub use fault::{CharsetFault, CharsetKind};
pub use laws::a_text_is_read_in_one_way;
