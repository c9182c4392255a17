//! The check of an image that comes from outside: its parts are looked at one after the other, each once those before it are found
//! good, and the first damage is told.
#![tactic(auto)]

mod check;
mod cover;
mod marks;
mod words;

pub use check::check_image;
