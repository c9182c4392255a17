//! The words after the program's name: which mode of the daemon they ask for, with the values of its options.
#![tactic(auto)]

mod commands;
mod fitting;
mod mode;
mod options;
mod reading;

pub use mode::Mode;
pub use reading::read_mode;
