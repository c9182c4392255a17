//! The files of an index say one thing: what they stand for, or where they are damaged.
#![tactic(auto)]

mod laws;

pub use laws::{
    a_damaged_directory_stands_for_nothing, a_directory_has_one_damage,
    a_directory_stands_for_one_thing, files_are_a_directory_or_damaged,
};
