//! The pieces of an extended query: words, quoted pieces, operators and limits, with their offsets.
#![tactic(auto)]

mod bytes;
mod laws;
mod letters;
mod operators;
mod piece;
mod reading;

pub use laws::{each_text_has_pieces, one_list_of_pieces};
pub use piece::{FieldLimit, Form, Names, Number, Piece, Quotation, Slice, Spelling, ZoneLimit};
pub use reading::{piece_at, pieces};
