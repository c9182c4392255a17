//! The image of a chunk: the bytes that a segment is in memory and a chunk's file on a disk; and what tells the rows of a chunk,
//! whatever keeps them: its answers.
#![tactic(auto)]

mod laws;
mod rows;

pub use laws::{
    an_example_of_an_image, an_image_is_of_one_list_of_rows, rows_have_one_image,
    the_example_has_its_word,
};
pub use rows::{chunks_are_told_by_answers, rows_are_told_by_answers};
