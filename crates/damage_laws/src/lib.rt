//! What the bytes of a chunk's file are is one thing: the image of rows, or damaged first at one place in one way.
#![tactic(auto)]

mod laws;

pub use laws::{an_image_has_no_damage, bytes_are_good_or_damaged, bytes_have_one_first_damage};
