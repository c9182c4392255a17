//! Rows from the parts of an image: bytes that have no damage are the image of rows of the schema.
#![tactic(auto)]

mod laws;

pub use laws::undamaged_bytes_are_an_image;
