//! The marks of a text: its runs without markup, the ends of sentences and paragraphs, and the tags that open and close zones.
//!
//! A text is cut into its pieces, one at a time (`cutting`, by what `markup` finds), and the marks of each are appended as
//! it comes (`marking`): those of a tag by its name (`tags`), and the ends of sentences in plain text (`sentences`). So
//! marks take a time linear in the text's length, and no memory but their own.
#![tactic(auto)]

mod cutting;
mod mark;
mod marking;
mod markup;
mod piece;
mod sentences;
mod tags;

pub use mark::{Mark, MarkKind, MarkRules};
pub use marking::{marks, one_list_of_marks};
